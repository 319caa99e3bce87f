// The vertical pair decision: what a pair of sub-characters that lie above one another becomes. Hardblanks are blanks by then.
#![tactic(auto)]

ghost use Rattle.std.specs.Prelude.{◌≡◌, option_map};
ghost use Rattle.rules.specs.Rules.{either_order};
ghost use Rattle.vertical.specs.VerticalPair.{set_has, two_bars, first_merging, merge, merges, merged_byte, barred, good_set, good_vertical};
ghost use Rattle.vertical.specs.Steps.{sideways_layout, rules_of, line_rules};

use pairs::Joint;
use subchars::{Direction, Layout, Mode, Smushing, SubCharacter, VerticalLayout, VerticalSmushing};

// A hyphen and an underscore, in either order.
fn is_line(u: SubCharacter, l: SubCharacter) -> bool
    ensures { result ≡ either_order "-_" u.0 l.0 }
{
    u.0 == b'-' && l.0 == b'_' || l.0 == b'-' && u.0 == b'_'
}

#[tactic(auto, unfolding(crate::specs::VerticalPair::two_bars))]
fn is_bars(u: SubCharacter, l: SubCharacter) -> bool
    ensures { result ≡ two_bars u.0 l.0 }
{
    u.0 == b'|' && l.0 == b'|'
}

// What rules 2048 and 4096 of a set make of a pair.
#[tactic(auto, unfolding(crate::specs::VerticalPair::horizontal_line, rules::specs::Rules::joined_if, rules::specs::Rules::or_else))]
fn line_merge(set: u16, u: SubCharacter, l: SubCharacter) -> Option<SubCharacter>
    ensures { option_map (λ (x : SubCharacter). x.0) result ≡ first_merging (set_has set) line_rules u.0 l.0 }
{
    if set / 2048 % 2 == 1 && is_line(u, l) {
        return Some(SubCharacter(b'='));
    }
    if set / 4096 % 2 == 1 && is_bars(u, l) {
        return Some(SubCharacter(b'|'));
    }
    None
}

// The horizontal layout that decides as far as the rules are shared: 256, 512 and 1024 are the horizontal 1, 2 and 4.
fn sideways_layout(layout: VerticalLayout) -> Layout
    ensures { result ≡ sideways_layout layout }
{
    match layout {
        VerticalLayout::FullHeight => Layout::FULL_WIDTH,
        VerticalLayout::Fitting => Layout::FITTING,
        VerticalLayout::Smushing(VerticalSmushing::Universal) => Layout::UNIVERSAL,
        VerticalLayout::Smushing(VerticalSmushing::Controlled(set)) => {
            Layout::Smushing(Smushing::Controlled((set / 256 % 8) as u8))
        }
    }
}

// The rules of a layout; 0 where it has none.
fn rules_of(layout: VerticalLayout) -> u16
    ensures { result ≡ rules_of layout }
{
    match layout {
        VerticalLayout::Smushing(VerticalSmushing::Controlled(set)) => set,
        _ => 0,
    }
}

// What a pair becomes, u above l: blanks, universal smushing and the shared rules as sideways, where the right one is the later one; then
// the rules for lines.
#[tactic(auto, using(crate::proofs::Deciding::by_lines))]
fn merge_of(layout: VerticalLayout, u: SubCharacter, l: SubCharacter) -> Option<SubCharacter>
    ensures { option_map (λ (x : SubCharacter). x.0) result ≡ merge layout u.0 l.0 }
{
    let sideways = Mode {
        layout: sideways_layout(layout),
        direction: Direction::LeftToRight,
        hardblank: SubCharacter(b' '),
    };
    match pairs::joint_of(sideways, u, l) {
        Joint::ByBlank(x) | Joint::ByUniversal(x) | Joint::ByRule(_, x) => Some(x),
        Joint::Unjoinable => line_merge(rules_of(layout), u, l),
    }
}

// What a pair that the layout joins becomes, u above l; NUL of one that it does not join.
#[tactic(auto, unfolding(crate::specs::VerticalPair::merged_byte))]
pub fn merged_byte(layout: VerticalLayout, u: SubCharacter, l: SubCharacter) -> SubCharacter
    ensures { result.0 ≡ merged_byte layout u.0 l.0 }
{
    merge_of(layout, u, l).unwrap_or(SubCharacter(b'\0'))
}

// Whether the layout can join a pair, u above l.
#[tactic(auto, unfolding(crate::specs::VerticalPair::merges, rules::specs::Rules::is_some))]
pub fn can_merge(layout: VerticalLayout, u: SubCharacter, l: SubCharacter) -> bool
    ensures { result ≡ merges layout u.0 l.0 }
{
    merge_of(layout, u, l).is_some()
}

// Whether a pair has a blank or is of two bars.
#[tactic(auto, unfolding(crate::specs::VerticalPair::barred))]
pub fn is_barred(u: SubCharacter, l: SubCharacter) -> bool
    ensures { result ≡ barred u.0 l.0 }
{
    u.0 == b' ' || l.0 == b' ' || is_bars(u, l)
}

// Whether a set is a sum of one to five of the rules.
fn good_set(set: u16) -> bool
    ensures { result ≡ good_set set }
{
    256 <= set && set <= 7936 && set % 256 == 0
}

// Whether a layout is not refused under 17.
pub fn good_vertical(layout: VerticalLayout) -> bool
    ensures { result ≡ good_vertical layout }
{
    match layout {
        VerticalLayout::Smushing(VerticalSmushing::Controlled(set)) => good_set(set),
        _ => true,
    }
}
