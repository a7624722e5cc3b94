// The calendar that a book's date is held to: real Gregorian days of 2020 to 2099.
#![tactic(auto)]

ghost use Rattle.std.specs.Prelude.{◌≡◌, ◌≤◌, ◌<◌};
ghost use Rattle.rules.specs.Calendar.{leap_year, days_in_month, real_day};

// The days of each month, January first, in a year that is no leap year.
pub const MONTH_LENGTHS: [u8; 12] = [31, 28, 31, 30, 31, 30, 31, 31, 30, 31, 30, 31];

// Whether a year is a leap year: every fourth, of the centuries only every fourth.
pub fn leap(year: u32) -> bool
    ensures { result ≡ leap_year year }
{
    year % 4 == 0 && (year % 100 != 0 || year % 400 == 0)
}

// The table's days of a month, as every year has them but for February of a leap year. 2023 is such a common year.
fn common_length(month: u32) -> u32
    requires { (1 ≤ month) × (month ≤ 12) }
    ensures { (result ≡ days_in_month 2023 month) × (result < 32) }
{
    MONTH_LENGTHS[(month - 1) as usize] as u32
}

// The days of a month of a year: the table's, and one more in February of a leap year.
pub fn month_length(year: u32, month: u32) -> u32
    requires { (1 ≤ month) × (month ≤ 12) }
    ensures { result ≡ days_in_month year month }
{
    let days = common_length(month);
    if month == 2 && leap(year) {
        days + 1
    } else {
        days
    }
}

// Whether a date, year × 10,000 + month × 100 + day, is a real day of 2020 to 2099. Any number may be asked.
pub fn is_real_day(date: u32) -> bool
    ensures { result ≡ real_day date }
{
    let year = date / 10000;
    let month = date / 100 % 100;
    let day = date % 100;
    // Not `(2020..=2099).contains(&year)`: std's contract speaks of the range as an iterator, and its proof did not close.
    if year < 2020 || 2099 < year || month < 1 || 12 < month {
        return false;
    }
    (1 <= day) & (day <= month_length(year, month))
}
