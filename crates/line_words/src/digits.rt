// Numbers of a line.
ghost use Rattle.std.specs.Prelude.{◌≡◌, Some, None, fold};
ghost use Rattle.std.specs.List.{list_all};
ghost use Rattle.mail_model.specs.Numbers.{is_digit, number_of, long_number_of};
ghost use Rattle.line_words.specs.Words.{shifted, shifted_long};

fn is_digit(x: u8) -> bool
    ensures { result ≡ is_digit x }
{
    b'0' <= x && x <= b'9'
}

fn all_digits(word: &[u8]) -> bool
    ensures { result ≡ list_all is_digit word.now }
{
    word.iter().all(|x| is_digit(*x))
}

// The value with one digit more, while it stays below 2^64.
fn shift(value: Option<u64>, x: u8) -> Option<u64>
    ensures { result ≡ shifted value x }
{
    value?
        .checked_mul(10)?
        .checked_add(u64::from(x.saturating_sub(b'0')))
}

fn value_of(word: &[u8]) -> Option<u64>
    ensures { result ≡ fold shifted (Some 0) word.now }
{
    word.iter().fold(Some(0), |value, x| shift(value, *x))
}

/// The number that the word is: 1 to 20 decimal digits, below 2^64. Takes no memory.
#[tactic(auto, using(crate::proofs::Numbers::fold_is_number))]
pub fn number(word: &[u8]) -> Option<u64>
    ensures { result ≡ number_of word.now }
{
    if word.is_empty() || word.len() > 20 || !all_digits(word) {
        return None;
    }
    value_of(word)
}

// The value with one digit more, while it stays below 2^128.
fn shift_long(value: Option<u128>, x: u8) -> Option<u128>
    ensures { result ≡ shifted_long value x }
{
    let tens = u128::checked_mul(value?, 10)?;
    tens.checked_add(u128::from(x.saturating_sub(b'0')))
}

fn long_value_of(word: &[u8]) -> Option<u128>
    ensures { result ≡ fold shifted_long (Some 0) word.now }
{
    word.iter().fold(Some(0), |value, x| shift_long(value, *x))
}

/// The number that 1 to 20 decimal digits are, whatever its value. Takes no memory.
#[tactic(auto, using(crate::proofs::Numbers::long_fold))]
pub fn long_number(word: &[u8]) -> Option<u128>
    ensures { result ≡ long_number_of word.now }
{
    let is_short = word.len() <= 20;
    if word.is_empty() || !is_short || !all_digits(word) {
        return None;
    }
    long_value_of(word)
}
