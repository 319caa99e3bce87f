// Which rules join a pair, by the kinds of its two sub-characters.
#![tactic(auto)]

ghost use Rattle.std.specs.Prelude.{◌≡◌, ◌<◌, get_or};
ghost use Rattle.subchars.specs.Hardblank.{blank};
ghost use Rattle.kinds.specs.Kinds.{kind_of, rule_entry, rules_joining};

use subchars::SubCharacter;

// The rules that join a pair, as the sum of their numbers: the left sub-character's kind picks the row, the right one's the column. The entry of
// two others holds where they are equal. A pair with a blank joins under no rule. docs/RULES.md explains the table.
const PAIR_RULES: [[u8; 16]; 16] = [
    // The columns are in the order of the rows: blank, hardblank, the twelve that the rules name, any other, one that is free.
    //  h  _  |  /  \  [  ]  {  }  (  )  <  >  o  f
    [0, 0, 0, 0, 0, 0, 0, 0, 0, 0, 0, 0, 0, 0, 0, 0], // blank
    [0, 32, 0, 0, 0, 0, 0, 0, 0, 0, 0, 0, 0, 0, 0, 0], // hardblank
    [0, 0, 1, 2, 2, 2, 2, 2, 2, 2, 2, 2, 2, 2, 0, 0], // _
    [0, 0, 2, 1, 4, 4, 4, 4, 4, 4, 4, 4, 4, 4, 0, 0], // |
    [0, 0, 2, 4, 1, 16, 4, 4, 4, 4, 4, 4, 4, 4, 0, 0], // /
    [0, 0, 2, 4, 16, 1, 4, 4, 4, 4, 4, 4, 4, 4, 0, 0], // backslash
    [0, 0, 2, 4, 4, 4, 1, 8, 4, 4, 4, 4, 4, 4, 0, 0], // [
    [0, 0, 2, 4, 4, 4, 8, 1, 4, 4, 4, 4, 4, 4, 0, 0], // ]
    [0, 0, 2, 4, 4, 4, 4, 4, 1, 8, 4, 4, 4, 4, 0, 0], // {
    [0, 0, 2, 4, 4, 4, 4, 4, 8, 1, 4, 4, 4, 4, 0, 0], // }
    [0, 0, 2, 4, 4, 4, 4, 4, 4, 4, 1, 8, 4, 4, 0, 0], // (
    [0, 0, 2, 4, 4, 4, 4, 4, 4, 4, 8, 1, 4, 4, 0, 0], // )
    [0, 0, 2, 4, 4, 4, 4, 4, 4, 4, 4, 4, 1, 0, 0, 0], // <
    [0, 0, 2, 4, 4, 4, 4, 4, 4, 4, 4, 4, 16, 1, 0, 0], // >
    [0, 0, 0, 0, 0, 0, 0, 0, 0, 0, 0, 0, 0, 0, 1, 0], // other
    [0, 0, 0, 0, 0, 0, 0, 0, 0, 0, 0, 0, 0, 0, 0, 0], // free
];

// The kind of any sub-character that no rule names.
const OTHER: usize = 14;

// The kind of a sub-character, and so its column.
#[tactic(auto, unfolding(crate::specs::Kinds::kind_of))]
fn kind_of(hardblank: SubCharacter, x: SubCharacter) -> usize
    ensures { result ≡ kind_of hardblank.0 x.0 }
{
    if x == hardblank {
        return 1;
    }
    let b = x.0;
    match b {
        b' ' => 0,
        b'_' => 2,
        b'|' => 3,
        b'/' => 4,
        b'\\' => 5,
        b'[' => 6,
        b']' => 7,
        b'{' => 8,
        b'}' => 9,
        b'(' => 10,
        b')' => 11,
        b'<' => 12,
        b'>' => 13,
        _ => OTHER,
    }
}

// The entry of a row. A constant array is made anew where it is used, and all of it where an index is not constant: so each arm has its own.
fn entry_in(row: [u8; 16], kind: usize) -> u8
    requires { kind < 16 }
    ensures { result ≡ get_or row kind 0 }
{
    match kind {
        0 => row[0],
        1 => row[1],
        2 => row[2],
        3 => row[3],
        4 => row[4],
        5 => row[5],
        6 => row[6],
        7 => row[7],
        8 => row[8],
        9 => row[9],
        10 => row[10],
        11 => row[11],
        12 => row[12],
        13 => row[13],
        14 => row[14],
        _ => row[15],
    }
}

// The entry of a column in the row of a left sub-character.
#[tactic(auto, unfolding(crate::specs::Kinds::kind_of))]
fn entry_of(hardblank: SubCharacter, left: SubCharacter, kind: usize) -> u8
    requires { kind < 16 }
    ensures { result ≡ rule_entry (kind_of hardblank.0 left.0) kind }
{
    let table = PAIR_RULES;
    if left == hardblank {
        return entry_in(table[1], kind);
    }
    let b = left.0;
    match b {
        b' ' => entry_in(table[0], kind),
        b'_' => entry_in(table[2], kind),
        b'|' => entry_in(table[3], kind),
        b'/' => entry_in(table[4], kind),
        b'\\' => entry_in(table[5], kind),
        b'[' => entry_in(table[6], kind),
        b']' => entry_in(table[7], kind),
        b'{' => entry_in(table[8], kind),
        b'}' => entry_in(table[9], kind),
        b'(' => entry_in(table[10], kind),
        b')' => entry_in(table[11], kind),
        b'<' => entry_in(table[12], kind),
        b'>' => entry_in(table[13], kind),
        _ => entry_in(table[14], kind),
    }
}

// The sum of the rules that join a pair without a blank.
pub fn pair_rules(hardblank: SubCharacter, left: SubCharacter, right: SubCharacter) -> u8
    requires { (left.0 ≡ blank → ⊥) × (right.0 ≡ blank → ⊥) }
    ensures { result ≡ rules_joining hardblank.0 left.0 right.0 }
{
    let kind = kind_of(hardblank, right);
    if (kind == OTHER) & (left != right) {
        return 0;
    }
    entry_of(hardblank, left, kind)
}
