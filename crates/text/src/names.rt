// Names: one to six characters, A to Z, 0 to 9, $ and the dot, the first a letter.
ghost use Rattle.std.specs.Prelude.{◌≡◌};
ghost use Rattle.std.specs.List.{list_all};
ghost use Rattle.rules.specs.Text.{is_letter, is_name_character, is_name, pack_name, name_of};
ghost use Rattle.text.specs.Values.{value_in};

use rules::limits::LONGEST_NAME;

fn is_letter(byte: u8) -> bool
    ensures { result ≡ is_letter byte }
{
    matches!(byte, b'A'..=b'Z')
}

// May it stand behind a name's first letter.
#[tactic(auto, unfolding(rules::specs::Text::is_name_character))]
pub fn is_name_character(byte: u8) -> bool
    ensures { result ≡ is_name_character byte }
{
    matches!(byte, b'A'..=b'Z' | b'0'..=b'9' | b'$' | b'.')
}

fn are_name_characters(bytes: &[u8]) -> bool
    ensures { result ≡ list_all is_name_character bytes.now }
{
    bytes.iter().all(|b| is_name_character(*b))
}

pub fn is_name(field: &[u8]) -> bool
    ensures { result ≡ is_name field.now }
{
    let Some((first, rest)) = field.split_first() else {
        return false;
    };
    if LONGEST_NAME <= rest.len() || !is_letter(*first) {
        return false;
    }
    are_name_characters(rest)
}

fn pack_name(field: &[u8]) -> u64
    ensures { result ≡ pack_name field.now }
{
    let mut name = 0;
    for k in 0..LONGEST_NAME {
        // 0 past the end, so that a short name is packed like a long one.
        name = name * 256 + u64::from(field.get(k).copied().unwrap_or(0));
    }
    name
}

// The packed name, where the field is one: its six bytes in base 256, the first highest, 0 where it is shorter.
pub fn read_name(field: &[u8]) -> Option<u64>
    ensures { value_in result ≡ name_of field.now }
{
    if !is_name(field) {
        return None;
    }
    Some(pack_name(field))
}
