// Items that stand one after the other in the file: a reader walks on from each to the next, up to the first fault.
ghost use Rattle.std.specs.Prelude.{◌≡◌, ◌+◌, ◌*◌, ◌≤◌, length};
ghost use Rattle.meaning.specs.Told.{told};
ghost use Rattle.meaning.specs.Layout.{items, mask, step, entries};
ghost use Rattle.bodies.specs.Faults.{fault};
ghost use Rattle.entries.specs.Forms.{sets_of};

use bodies::Part;
use entries::{Section, entry, inside};
use file_numbers::u16_at;
use meaning::Fault;
use reader::{past, reader_at};

// A mask over so many facts.
fn mask(file: &[u8], facts: u8, at: usize) -> Result<(), Fault>
    requires { (at ≤ length file.now) × (length file.now ≤ 65536) }
    ensures { result ≡ fault (mask file.now facts at) }
{
    if !inside(file, 8, at) {
        return Err(Fault {
            number: 3,
            place: at as u32,
        });
    }
    let whole = Part {
        bytes: file,
        start: 0,
    };
    bodies::mask(&whole, at, facts)
}

// So many masks over so many facts.
pub(crate) fn masks(file: &[u8], facts: u8, place: u32, count: u16) -> Result<(), Fault>
    requires { (place ≤ length file.now) × (length file.now ≤ 65536) }
    ensures { result ≡ fault (items (mask file.now facts) 8 place count) }
{
    let mut r = reader_at(file, place as usize);
    for _ in 0..count {
        mask(r.src, facts, r.at)?;
        r = past(r, 8);
    }
    Ok(())
}

// So many entries of a section: the place after them.
pub(crate) fn entries(file: &[u8], section: Section, place: u32, count: u16) -> Result<u32, Fault>
    requires { (place ≤ length file.now) × (length file.now ≤ 65536) }
    ensures { result ≡ told (λ x. x.1) (entries file.now (sets_of file.now section).kinds 0 place count) }
{
    let mut r = reader_at(file, place as usize);
    for i in 0..count {
        entry(r.src, section, i, r.at as u32)?;
        r = past(r, 2 + u16_at(r.src, r.at) as usize);
    }
    Ok(r.at as u32)
}

// So many steps, of 12 bytes each, of which the first that is cut is at fault: the place after them.
pub(crate) fn steps(file: &[u8], place: u32, count: u16) -> Result<u32, Fault>
    requires { (place ≤ length file.now) × (length file.now ≤ 65536) }
    ensures { result ≡ told (λ _. place + 12 * count) (items (step file.now) 12 place count) }
{
    let whole = (file.len() - place as usize) / 12;
    if whole < count as usize {
        return Err(Fault {
            number: 3,
            place: place + 12 * whole as u32,
        });
    }
    Ok(place + 12 * count as u32)
}
