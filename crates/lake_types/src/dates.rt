ghost use Rattle.std.specs.Prelude.{◌≡◌, ◌≢◌, true, IfOk, IfSome, None, ℤ};
ghost use Rattle.std.specs.String.{string_bytes};
ghost use Rattle.lake_types.specs.Calendar as spec;

use crate::ranges::is_day;
use jiff_core::civil::Date;
use jiff_fmt::temporal::{DateTimePrinter, parse_date};
use std::alloc::{AllocError, Global};

/// The text of a day, as `2024-02-29`.
pub(crate) fn day_text(alloc: Global, day: i32) -> Result<String, AllocError>
    requires { spec.is_day day ≡ true }
    ensures { IfOk result (λ text. string_bytes text ≡ spec.day_text day) }
{
    let Ok(date) = Date::from_unix_epoch_day(i64::from(day)) else {
        unreachable!()
    };
    String::from_str(alloc, DateTimePrinter::new().date_text(date).as_str())
}

/// The day with this text. The library reads other spellings of a date too, so the text is compared with the one that
/// it prints.
pub(crate) fn day_of(text: &str) -> Option<i32>
    ensures some { IfSome result (λ day. (spec.is_day day ≡ true) × (spec.day_text day ≡ text.now)) }
    ensures none { result ≡ None → (day : ℤ) → spec.is_day day ≡ true → spec.day_text day ≢ text.now }
{
    let Ok(date) = parse_date(text.as_bytes()) else {
        return None;
    };
    if DateTimePrinter::new().date_text(date).as_str() != text {
        return None;
    }
    let day = date.to_unix_epoch_day();
    if is_day(day) { Some(day) } else { None }
}
