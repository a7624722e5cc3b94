// A book written as another version to an output, after the book's opening questions. A refused call leaves the output as it is, a longer
// output keeps its rest.
#![tactic(auto)]

ghost use Rattle.std.specs.Prelude.{◌≡◌};
ghost use Rattle.rules.specs.Questions.{version_known};
ghost use Rattle.book_format.specs.Questions.{book_number};
ghost use Rattle.refusals.specs.Refusal.{number_in};
ghost use Rattle.outputs.specs.Output.{Wrote};
ghost use Rattle.conversions.specs.Conversion.{conversion_after};

use refusals::Refusal;

// Is any number the version of a book?
fn is_version(version: u32) -> bool
    ensures { result ≡ version_known version }
{
    if 65535 < version {
        return false;
    }
    book_format::is_known(version as u16)
}

// Writes a book whose opening questions were asked as a version to the front of an output; the first question answered by no refuses it.
pub fn convert(
    book: &[u8],
    opened: Result<(), Refusal>,
    version: u32,
    out: &mut [u8],
) -> Result<(), Refusal>
    requires { number_in opened ≡ 0 → book_number book.now ≡ 0 }
    ensures { Wrote (conversion_after (number_in opened) version book.now out.old) (number_in result) out.new }
{
    opened?;
    if !is_version(version) {
        return Err(Refusal::UnknownTarget);
    }
    let target = version as u16;
    if !call_versions::keeps(book, target) {
        return Err(Refusal::InformationLost);
    }
    let size = call_versions::length_as(book, target);
    if out.len() < size {
        return Err(Refusal::VersionOutputTooShort);
    }
    call_versions::convert(book, target, &mut out[..size]);
    Ok(())
}
