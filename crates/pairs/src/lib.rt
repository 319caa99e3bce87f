// The pair decision: what a pair of facing sub-characters becomes, and by which rule.
#![tactic(auto)]

ghost use Rattle.std.specs.Prelude.{◌≡◌, true};
ghost use Rattle.subchars.specs.Hardblank.{blank};
ghost use Rattle.pairs.specs.Pair.{controlled, later, universal, smushed, joint, is_joined, joins, byte_of};

use rules::Rule;
use subchars::{Direction, Layout, Mode, Smushing, SubCharacter};

// What a pair becomes, and by what: a blank that yields, universal smushing, or a rule. (Document 01 calls the byte of the last two the
// pair's joint.)
#[derive(Clone, Copy, PartialEq, Eq)]
pub enum Joint {
    ByBlank(SubCharacter),
    ByUniversal(SubCharacter),
    ByRule(Rule, SubCharacter),
    Unjoinable,
}

const NONE: SubCharacter = SubCharacter(0);

#[tactic(auto, using(crate::proofs::Masking::masked, crate::proofs::Masking::positive_not))]
fn controlled_joint(
    set: u8,
    hardblank: SubCharacter,
    left: SubCharacter,
    right: SubCharacter,
) -> Joint
    requires { (left.0 ≡ blank → ⊥) × (right.0 ≡ blank → ⊥) }
    ensures { result ≡ controlled set hardblank.0 left.0 right.0 }
{
    let n = set & kinds::pair_rules(hardblank, left, right);
    if n == 0 {
        return Joint::Unjoinable;
    }
    Joint::ByRule(Rule::numbered(n), rules::ruled_byte(left, right))
}

// Of two sub-characters, the later FIGcharacter's.
fn later_of(direction: Direction, left: SubCharacter, right: SubCharacter) -> SubCharacter
    ensures { result.0 ≡ later direction left.0 right.0 }
{
    match direction {
        Direction::LeftToRight => right,
        Direction::RightToLeft => left,
    }
}

#[tactic(auto, unfolding(crate::specs::Pair::universal))]
fn universal_joint(
    direction: Direction,
    hardblank: SubCharacter,
    left: SubCharacter,
    right: SubCharacter,
) -> Joint
    ensures { result ≡ universal direction hardblank.0 left.0 right.0 }
{
    if left == hardblank {
        return Joint::ByUniversal(right);
    }
    if right == hardblank {
        return Joint::ByUniversal(left);
    }
    Joint::ByUniversal(later_of(direction, left, right))
}

fn smushed_joint(
    kind: Smushing,
    direction: Direction,
    hardblank: SubCharacter,
    left: SubCharacter,
    right: SubCharacter,
) -> Joint
    requires { (left.0 ≡ blank → ⊥) × (right.0 ≡ blank → ⊥) }
    ensures { result ≡ smushed kind direction hardblank.0 left.0 right.0 }
{
    match kind {
        Smushing::Universal => universal_joint(direction, hardblank, left, right),
        Smushing::Controlled(set) => controlled_joint(set, hardblank, left, right),
    }
}

// What a pair of facing sub-characters becomes, and by what.
#[tactic(auto, unfolding(crate::specs::Pair::joint))]
pub fn joint_of(mode: Mode, left: SubCharacter, right: SubCharacter) -> Joint
    ensures { result ≡ joint mode left.0 right.0 }
{
    if left.0 == b' ' {
        return Joint::ByBlank(right);
    }
    if right.0 == b' ' {
        return Joint::ByBlank(left);
    }
    let layout = mode.layout;
    let direction = mode.direction;
    let hardblank = mode.hardblank;
    match layout {
        Layout::FullWidth => Joint::Unjoinable,
        Layout::Fitting => Joint::Unjoinable,
        Layout::Smushing(kind) => smushed_joint(kind, direction, hardblank, left, right),
    }
}

fn byte_of(j: Joint) -> SubCharacter
    ensures { result.0 ≡ byte_of j }
{
    match j {
        Joint::ByBlank(x) => x,
        Joint::ByUniversal(x) => x,
        Joint::ByRule(_, x) => x,
        Joint::Unjoinable => NONE,
    }
}

// Whether a kind of smushing joins a pair without a blank, in either direction.
#[tactic(auto, using(crate::proofs::Masking::mask_joins), unfolding(crate::specs::Pair::universal))]
fn smushes(kind: Smushing, hardblank: SubCharacter, left: SubCharacter, right: SubCharacter) -> bool
    requires { (left.0 ≡ blank → ⊥) × (right.0 ≡ blank → ⊥) }
    ensures { (d : Direction) → result ≡ is_joined (smushed kind d hardblank.0 left.0 right.0) }
{
    match kind {
        Smushing::Universal => true,
        Smushing::Controlled(set) => set & kinds::pair_rules(hardblank, left, right) != 0,
    }
}

// Whether the mode can join a pair.
#[tactic(auto, unfolding(crate::specs::Pair::joins, crate::specs::Pair::joint))]
pub fn can_join(mode: Mode, left: SubCharacter, right: SubCharacter) -> bool
    ensures { result ≡ joins mode left.0 right.0 }
{
    if left.0 == b' ' {
        return true;
    }
    if right.0 == b' ' {
        return true;
    }
    let layout = mode.layout;
    let hardblank = mode.hardblank;
    match layout {
        Layout::FullWidth => false,
        Layout::Fitting => false,
        Layout::Smushing(kind) => smushes(kind, hardblank, left, right),
    }
}

// What a pair that joins becomes.
pub fn joined_byte(mode: Mode, left: SubCharacter, right: SubCharacter) -> SubCharacter
    ensures { result.0 ≡ byte_of (joint mode left.0 right.0) }
{
    byte_of(joint_of(mode, left, right))
}

// What a pair without a blank that a kind of smushing joins becomes.
fn smushed_byte(
    kind: Smushing,
    direction: Direction,
    hardblank: SubCharacter,
    left: SubCharacter,
    right: SubCharacter,
) -> SubCharacter
    requires { is_joined (smushed kind direction hardblank.0 left.0 right.0) ≡ true }
    ensures { result.0 ≡ byte_of (smushed kind direction hardblank.0 left.0 right.0) }
{
    match kind {
        Smushing::Universal => byte_of(universal_joint(direction, hardblank, left, right)),
        Smushing::Controlled(_) => rules::ruled_byte(left, right),
    }
}

// What a pair becomes that is known to join: no table is asked whether it does. Without a blank only smushing joins.
#[tactic(auto, unfolding(crate::specs::Pair::joins, crate::specs::Pair::joint))]
pub fn joining_byte(mode: Mode, left: SubCharacter, right: SubCharacter) -> SubCharacter
    requires { joins mode left.0 right.0 ≡ true }
    ensures { result.0 ≡ byte_of (joint mode left.0 right.0) }
{
    if left.0 == b' ' {
        return right;
    }
    if right.0 == b' ' {
        return left;
    }
    let layout = mode.layout;
    let direction = mode.direction;
    let hardblank = mode.hardblank;
    match layout {
        Layout::FullWidth => left,
        Layout::Fitting => left,
        Layout::Smushing(kind) => smushed_byte(kind, direction, hardblank, left, right),
    }
}
