// The rules of controlled smushing, and what the one that joins a pair makes of it.
#![tactic(auto)]

ghost use Rattle.std.specs.Prelude.{◌≡◌, ℕ, Some};
ghost use Rattle.rules.specs.Rules.{by_rule, rule_number};
ghost use Rattle.rules.specs.Marks.{Marked};

use subchars::SubCharacter;

// The rules of controlled smushing, by the standard's names.
#[derive(Clone, Copy, PartialEq, Eq)]
pub enum Rule {
    EqualCharacter,
    Underscore,
    Hierarchy,
    OppositePair,
    BigX,
    Hardblank,
}

// A sub-character of one of the six classes of rule 4, counted from 1, and its partner under rule 8 (NUL where it has none).
#[derive(Clone, Copy, PartialEq, Eq)]
pub struct Mark {
    pub sub_character: SubCharacter,
    pub class: u8,
    pub partner: SubCharacter,
}

const NONE: SubCharacter = SubCharacter(0);

// The six classes in rising order.
const MARKS: [Mark; 11] = [
    Mark {
        sub_character: SubCharacter(b'|'),
        class: 1,
        partner: NONE,
    },
    Mark {
        sub_character: SubCharacter(b'/'),
        class: 2,
        partner: NONE,
    },
    Mark {
        sub_character: SubCharacter(b'\\'),
        class: 2,
        partner: NONE,
    },
    Mark {
        sub_character: SubCharacter(b'['),
        class: 3,
        partner: SubCharacter(b']'),
    },
    Mark {
        sub_character: SubCharacter(b']'),
        class: 3,
        partner: SubCharacter(b'['),
    },
    Mark {
        sub_character: SubCharacter(b'{'),
        class: 4,
        partner: SubCharacter(b'}'),
    },
    Mark {
        sub_character: SubCharacter(b'}'),
        class: 4,
        partner: SubCharacter(b'{'),
    },
    Mark {
        sub_character: SubCharacter(b'('),
        class: 5,
        partner: SubCharacter(b')'),
    },
    Mark {
        sub_character: SubCharacter(b')'),
        class: 5,
        partner: SubCharacter(b'('),
    },
    Mark {
        sub_character: SubCharacter(b'<'),
        class: 6,
        partner: NONE,
    },
    Mark {
        sub_character: SubCharacter(b'>'),
        class: 6,
        partner: NONE,
    },
];

// The table's entry of a sub-character; class 0 where it has none.
#[tactic(auto, using(crate::proofs::Table::not_marked))]
fn mark_of(x: SubCharacter) -> Mark
    ensures { Marked x.0 result }
{
    let marks = MARKS;
    let b = x.0;
    match b {
        b'|' => marks[0],
        b'/' => marks[1],
        b'\\' => marks[2],
        b'[' => marks[3],
        b']' => marks[4],
        b'{' => marks[5],
        b'}' => marks[6],
        b'(' => marks[7],
        b')' => marks[8],
        b'<' => marks[9],
        b'>' => marks[10],
        _ => Mark {
            sub_character: x,
            class: 0,
            partner: NONE,
        },
    }
}

impl Rule {
    // The rule of a number: a power of two, so that a set of rules is a sum.
    pub fn numbered(n: u8) -> Rule
        ensures { (p : Rule) → n ≡ rule_number p → result ≡ p }
    {
        match n {
            1 => Rule::EqualCharacter,
            2 => Rule::Underscore,
            4 => Rule::Hierarchy,
            8 => Rule::OppositePair,
            16 => Rule::BigX,
            _ => Rule::Hardblank,
        }
    }
}

// What rule 4, 8 or 16 makes of a pair that it joins.
fn marks_byte(left: SubCharacter, right: SubCharacter) -> SubCharacter
    requires { left.0 ≡ right.0 → ⊥ }
    ensures { (h x : ℕ) (p : Rule) → by_rule p h left.0 right.0 ≡ Some x → (rule_number p ≡ 2 → ⊥) → result.0 ≡ x }
{
    let a = mark_of(left);
    let b = mark_of(right);
    if a.class < b.class {
        return right;
    }
    if b.class < a.class {
        return left;
    }
    if a.partner == right {
        return SubCharacter(b'|');
    }
    if left.0 == b'/' {
        return SubCharacter(b'|');
    }
    if left.0 == b'\\' {
        return SubCharacter(b'Y');
    }
    SubCharacter(b'X')
}

// What the rule that joins a pair makes of it. No pair is joined by two.
#[tactic(auto, using(crate::proofs::Deciding::of_equal, crate::proofs::Deciding::underscore_right, crate::proofs::Deciding::underscore_left, crate::proofs::Deciding::no_underscore))]
pub fn ruled_byte(left: SubCharacter, right: SubCharacter) -> SubCharacter
    ensures { (h x : ℕ) (p : Rule) → by_rule p h left.0 right.0 ≡ Some x → result.0 ≡ x }
{
    if left == right {
        return left;
    }
    if right.0 == b'_' {
        return left;
    }
    if left.0 == b'_' {
        return right;
    }
    marks_byte(left, right)
}
