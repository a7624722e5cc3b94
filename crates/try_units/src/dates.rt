// Dates: the length of every month of four years, as the date check finds it, and single dates at the edges.
ghost use Rattle.std.specs.Prelude.{◌≤◌};

use crate::text;
use std::io;
use std::io::Write;

// How many days a month has: the first day on which the date check says no is one past them.
fn days_found(year: u32, month: u32) -> u32
    requires { (year ≤ 9999) × (month ≤ 99) }
{
    let first = year * 10000 + month * 100;
    for days in 0..99 {
        if !calendar::is_real_day(first + days + 1) {
            return days;
        }
    }
    99
}

// The length of each month of a year.
fn year(out: &mut impl Write, year: u32) -> io::Result<()>
    requires { year ≤ 9999 }
{
    text::write(out, b"year")?;
    text::number(out, year as u64)?;
    for month in 1..=12 {
        text::number(out, days_found(year, month) as u64)?;
    }
    text::end(out)
}

// One date, and whether it is a real day.
fn single_date(out: &mut impl Write, date: u32) -> io::Result<()> {
    text::asked(out, b"date", date as u64, calendar::is_real_day(date))
}

// Dates at the edges.
fn dates(out: &mut impl Write) -> io::Result<()> {
    // The first and the last day of the range, and the days before and after it.
    single_date(out, 20200101)?;
    single_date(out, 20991231)?;
    single_date(out, 20191231)?;
    single_date(out, 21000101)?;
    // Days before a month's first and after its last, in a common year and in a leap year.
    single_date(out, 20230100)?;
    single_date(out, 20230132)?;
    single_date(out, 20230229)?;
    single_date(out, 20230431)?;
    single_date(out, 20240229)?;
    single_date(out, 20240230)?;
    // Months before the first and after the last.
    single_date(out, 20230001)?;
    single_date(out, 20231231)?;
    single_date(out, 20231301)?;
    // Leap days of centuries out of the range, and numbers that are no date.
    single_date(out, 20000229)?;
    single_date(out, 21000229)?;
    single_date(out, 120230101)?;
    single_date(out, 0)?;
    single_date(out, 101)?;
    single_date(out, 4294967295)
}

// One year, and whether it is a leap year.
fn leap_year(out: &mut impl Write, year: u32) -> io::Result<()> {
    text::asked(out, b"leap", year as u64, calendar::leap(year))
}

// The vectors of the calendar: a leap year, a common year, the next leap year and the last year of the range; dates; centuries and
// years beside them, the last that a u32 has among them.
pub fn run(out: &mut impl Write) -> io::Result<()> {
    year(out, 2020)?;
    year(out, 2023)?;
    year(out, 2024)?;
    year(out, 2099)?;
    dates(out)?;
    leap_year(out, 0)?;
    leap_year(out, 1900)?;
    leap_year(out, 1996)?;
    leap_year(out, 2000)?;
    leap_year(out, 2001)?;
    leap_year(out, 2100)?;
    leap_year(out, 4294967200)?;
    leap_year(out, 4294967295)
}
