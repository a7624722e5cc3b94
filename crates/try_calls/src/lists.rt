// Lists of postings, of the file `lists`: for each are printed a line of its place, its number and what the places beside it hold, which is
// 99 before the call, and a line of the book afterwards, in hexadecimal. In the file a list is how many ids, areas, amounts and places it
// has and the length of its book (2 bytes each), the ids and the areas (4 each), the amounts (8 each), and the book.
ghost use Rattle.std.specs.Prelude.{◌+◌, ◌*◌, ◌≤◌, length};

use crate::numbers;
use call_rights::Party;
use std::io;
use std::io::Write;

// Reads a column of a list: the numbers of 4 bytes from `at` on.
fn read_numbers(part: &[u8], at: usize, column: &mut [u32])
    requires { at + 4 * length column.old ≤ length part.now }
{
    for i in 0..column.len() {
        column[i] = fields::get_u32(part, at + 4 * i);
    }
}

// The same of amounts, of 8 bytes each.
fn read_amounts(part: &[u8], at: usize, column: &mut [i64])
    requires { at + 8 * length column.old ≤ length part.now }
{
    for i in 0..column.len() {
        column[i] = numbers::amount_of(fields::get_u64(part, at + 8 * i));
    }
}

// A list on a book, as two lines.
fn post(
    out: &mut impl Write,
    place: u64,
    book: &mut [u8],
    ids: &[u32],
    areas: &[u32],
    amounts: &[i64],
    places: &mut [u32],
) -> io::Result<()> {
    let mut log = [0u8; 1];
    let posted = daybook::list(
        book,
        Party::Operator,
        None,
        false,
        &mut log,
        ids,
        areas,
        amounts,
        places,
    );
    write!(out, "{place}")?;
    day_print::number(out, refusals::number_of(posted) as u64)?;
    numbers::print_numbers(out, places)?;
    out.write_all(b"\nbook")?;
    numbers::print_bytes(out, book)?;
    out.write_all(b"\n")
}

// The list that a part of the file holds, read into its columns.
fn post_part(
    out: &mut impl Write,
    place: u64,
    part: &mut [u8],
    ids: &mut [u32],
    areas: &mut [u32],
    amounts: &mut [i64],
    places: &mut [u32],
) -> io::Result<()>
    requires { 4 * length ids.old + 4 * length areas.old + 8 * length amounts.old ≤ length part.old }
{
    let areas_at = 4 * ids.len();
    let amounts_at = areas_at + 4 * areas.len();
    let start = amounts_at + 8 * amounts.len();
    read_numbers(part, 0, ids);
    read_numbers(part, areas_at, areas);
    read_amounts(part, amounts_at, amounts);
    post(out, place, &mut part[start..], ids, areas, amounts, places)
}

// The list that a part of the file holds, with as many ids, areas, amounts and places.
fn make_list(
    out: &mut impl Write,
    place: u64,
    part: &mut [u8],
    id_count: usize,
    area_count: usize,
    amount_count: usize,
    place_count: usize,
) -> io::Result<()>
    requires id_count_bound { (id_count ≤ 513) × (area_count ≤ 513) × (amount_count ≤ 513) × (place_count ≤ 513) }
    requires amount_count_in_bounds { 4 * id_count + 4 * area_count + 8 * amount_count ≤ length part.old }
{
    let mut ids = [0u32; 513];
    let mut areas = [0u32; 513];
    let mut amounts = [0i64; 513];
    let mut places = [99u32; 513];
    post_part(
        out,
        place,
        part,
        &mut ids[..id_count],
        &mut areas[..area_count],
        &mut amounts[..amount_count],
        &mut places[..place_count],
    )
}

// The count at a place of the file, of which a list has at most 513.
fn count_at(file: &[u8], at: usize) -> usize
    requires { at + 2 ≤ length file.now }
    ensures { result ≤ 513 }
{
    let count = fields::get_u16(file, at) as usize;
    count.min(513)
}

// Makes every list of the file `lists`, up to the last that is whole.
pub fn make_lists(out: &mut impl Write, file: &mut [u8]) -> io::Result<()> {
    let mut at = 0;
    let mut place = 0;
    // From list to list, each as long as its own counts say.
    while 10 <= file.len() - at {
        let ids = count_at(file, at);
        let areas = count_at(file, at + 2);
        let amounts = count_at(file, at + 4);
        let places = count_at(file, at + 6);
        let len = fields::get_u16(file, at + 8) as usize;
        let start = at + 10;
        let size = 4 * ids + 4 * areas + 8 * amounts + len;
        if file.len() - start < size {
            return Ok(());
        }
        let end = start + size;
        make_list(
            out,
            place,
            &mut file[start..end],
            ids,
            areas,
            amounts,
            places,
        )?;
        at = end;
        place += 1;
    }
    Ok(())
}
