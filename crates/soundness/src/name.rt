// Packed names: six bytes, the first highest, zeros behind a shorter name.
ghost use Rattle.std.specs.Prelude.{◌≡◌};
ghost use Rattle.rules.specs.Text.{is_letter, is_packed};
ghost use Rattle.soundness.specs.Checks.{goes_on};

use text::names::is_name_character;

fn is_letter(b: u64) -> bool
    ensures { result ≡ is_letter b }
{
    65 <= b && b <= 90
}

// The rest of a name, whose next byte is b: nothing, or it goes on with a character of names.
fn goes_on(rest: u64, b: u8) -> bool
    ensures { result ≡ goes_on rest b }
{
    rest == 0 || is_name_character(b)
}

// Kept: a return at each test. As one condition its answers for the fourth and the fifth character stayed open.
pub fn is_packed(n: u64) -> bool
    ensures { result ≡ is_packed n }
{
    if !is_letter(n / 1099511627776) {
        return false;
    }
    if !goes_on(n % 1099511627776, (n / 4294967296 % 256) as u8) {
        return false;
    }
    if !goes_on(n % 4294967296, (n / 16777216 % 256) as u8) {
        return false;
    }
    if !goes_on(n % 16777216, (n / 65536 % 256) as u8) {
        return false;
    }
    if !goes_on(n % 65536, (n / 256 % 256) as u8) {
        return false;
    }
    goes_on(n % 256, (n % 256) as u8)
}
