//! The period of a trace, read from its text.

ghost use Rattle.std.specs.Prelude.{◌≡◌, ◌^◌, ◌<◌, ◌≤◌, IfSome};
ghost use Rattle.std.specs.List.{list_all};
ghost use Rattle.gem_trace.specs.Period.{digit_at, is_digit, is_period_text, milliseconds_of, pair_at, period_of};

// The shortest period, in milliseconds.
const SHORTEST: u64 = 100;

/// The period in milliseconds. `None` exactly where the text is none: it isn't six digits hhmmss or eight hhmmsscc, its
/// minutes or seconds pass 59, or it names less than 100 ms.
pub(crate) fn period_of(text: &[u8]) -> Option<u64>
    ensures period { result ≡ period_of text.now }
    ensures short { IfSome result (λ period. period < 2 ^ 62) }
{
    let milliseconds = milliseconds_of(text);
    if is_period_text(text) && SHORTEST <= milliseconds {
        Some(milliseconds)
    } else {
        None
    }
}

fn is_period_text(text: &[u8]) -> bool
    ensures { result ≡ is_period_text text.now }
{
    (text.len() == 6 || text.len() == 8)
        && are_digits(text)
        && pair_at(text, 2) <= 59
        && pair_at(text, 4) <= 59
}

fn are_digits(text: &[u8]) -> bool
    ensures { result ≡ list_all is_digit text.now }
{
    text.iter().all(|code| is_digit(*code))
}

fn is_digit(code: u8) -> bool
    ensures { result ≡ is_digit code }
{
    48 <= code && code <= 57
}

// The sum of its parts, each of which is small also where the text is no period.
fn milliseconds_of(text: &[u8]) -> u64
    ensures sum { result ≡ milliseconds_of text.now }
    ensures small { result ≤ 20000000000 }
{
    pair_at(text, 0) * 3_600_000
        + pair_at(text, 2) * 60_000
        + pair_at(text, 4) * 1_000
        + pair_at(text, 6) * 10
}

fn pair_at(text: &[u8], place: usize) -> u64
    requires { place ≤ 6 }
    ensures pair { result ≡ pair_at text.now place }
    ensures small { result ≤ 2805 }
{
    digit_at(text, place) * 10 + digit_at(text, place + 1)
}

fn digit_at(text: &[u8], place: usize) -> u64
    ensures digit { result ≡ digit_at text.now place }
    ensures small { result ≤ 255 }
{
    match text.get(place) {
        Some(code) => u64::from(code.saturating_sub(48)),
        None => 0,
    }
}
