// Numbers as words write them.

ghost use Rattle.std.specs.Prelude.{◌≡◌, ◌≤◌, IfSome};
ghost use Rattle.std.specs.List.{list_all};
ghost use Rattle.aos_words.specs.Number.{is_digit, is_number, number_in};

// The most digits of a number.
const MOST_DIGITS: usize = 10;

// Whether each byte is a decimal digit.
fn are_digits(digits: &[u8]) -> bool
    ensures { result ≡ list_all is_digit digits.now }
{
    match digits {
        [] => true,
        [digit, others @ ..] => digit.is_ascii_digit() && are_digits(others),
    }
}

// Whether the word is 1 to 10 decimal digits.
fn is_number(word: &str) -> bool
    ensures { result ≡ is_number word.now }
{
    let digits = word.as_bytes();
    !digits.is_empty() && digits.len() <= MOST_DIGITS && are_digits(digits)
}

#[tactic(auto, using(crate::proofs::Numerals::plain_number))]
/// The number that a word writes in 1 to 10 decimal digits, where it is one from `least` to `most`.
pub fn number_in(word: &str, least: u64, most: u64) -> Option<u64>
    ensures value { result ≡ number_in least most word.now }
    ensures range { IfSome result (λ n. (least ≤ n) × (n ≤ most)) }
{
    if !is_number(word) {
        return None;
    }
    let Ok(n) = word.parse::<u64>() else {
        return None;
    };
    if n < least || most < n {
        return None;
    }
    Some(n)
}
