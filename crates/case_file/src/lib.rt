// Judges the update that a case file holds, and writes the verdict line.
#![tactic(auto, using(crate::proofs::Ways::ways), unfolding(crate::specs::CaseFile::optional_at, crate::specs::CaseFile::rate_at, crate::specs::CaseFile::resolved_at, crate::specs::CaseFile::dead_at, crate::specs::Walk::case_places, crate::specs::Walk::optional_body, crate::specs::Walk::verdict_at, molecule::specs::Partial::only, molecule::specs::Partial::pick))]

mod items;
mod record_list;

ghost use Rattle.std.specs.Prelude.{◌≡◌, ◌≤◌, length};
ghost use Rattle.molecule.specs.Write.{splice};
ghost use Rattle.rules.specs.Told.{told};
ghost use Rattle.case_file.specs.CaseFile.{case_of, verdict_of, case_line};
ghost use Rattle.case_file.specs.Walk.{verdict_at};

use arithmetic::little_endian;
use error::Refusal;
use items::{CaseFile, Kind, Places};
use rules::Update;

// The longest case file.
pub const FILE_BYTES: usize = 65_536;

// Room for the list of the records of any case file: 4 bytes, and 5 for every 2 of the file.
const RECORD_BYTES: usize = 4 + FILE_BYTES / 2 * 5;

// Judges the update whose bodies stand at these places of a file, over a list of records.
fn judge_at(file: CaseFile<'_>, places: Places, records: &[u8]) -> Update
    ensures { told result ≡ verdict_at file.entry.bytes.now places records.now }
{
    let ours = file.optional_body(Kind::Ours, 0);
    let peer = file.body(places.peer);
    let lock = file.body(places.lock);
    let udt = file.optional_body(Kind::Udt, places.udt);
    let source = file.body(places.source);
    let rate = little_endian::u64_at(file.body(places.rate), 0);
    funding_tx::update_for_peer(ours, peer, lock, udt, source, rate, records)
}

// Judges the update of a case file. The list of its records is made in `records`.
fn judge_case(bytes: &[u8], records: &mut [u8]) -> Update
    requires { 163844 ≤ length records.old }
    ensures { told result ≡ verdict_of (case_of bytes.now) }
{
    if bytes.len() > FILE_BYTES {
        return Err(Refusal::LentBytesUnreadable);
    }
    let file = CaseFile { bytes };
    let places = file.find_places().ok_or(Refusal::LentBytesUnreadable)?;
    let list = file
        .measure(places.records)
        .ok_or(Refusal::LentBytesUnreadable)?;
    let n = file.put_list(records, places.records, list);
    judge_at(file, places, &records[0..n])
}

// Writes the verdict line of a case file to the start of `line`, and answers its length; the bytes behind it keep their value.
pub fn check_case(file: &[u8], line: &mut [u8; verdict_line::LINE_BYTES]) -> usize
    ensures line_after { line.new ≡ splice line.old 0 (case_line file.now) }
    ensures value { result ≡ length (case_line file.now) }
{
    let mut records = [0u8; RECORD_BYTES];
    let update = judge_case(file, &mut records);
    verdict_line::write_line(update, line)
}
