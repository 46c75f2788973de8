//! The lines of an input.
ghost use Rattle.std.specs.Prelude.{◌≡◌, ◌==◌, ◌<◌, [], ◌∷◌, length, true, position, MatchOption, IfOk, IfErr, OnOk};
ghost use Rattle.std.specs.Option.{option_to_list};
ghost use Rattle.std.specs.Str.Lines.{lines, strip_carriage_return};
ghost use Rattle.guppy_lines.specs.Text.{statement_of, statements_of, is_good, IsAllGood};
ghost use Rattle.guppy_lines.specs.Records.{AreRecordsOf};
ghost use Rattle.guppy_lines.specs.Reading.{AddsStatements, IsLineFault, IsReadingFault};

use crate::fault::RunFault;
use crate::records::{add_statement, no_records};
use crate::statements::statement_of;
use guppy_data::Records;
use memchr::memchr;
use std::alloc::Global;

fn newline_in(text: &[u8]) -> Option<usize>
    ensures { result ≡ position (λ b. b == 10) text.now }
{
    memchr(b'\n', text)
}

fn without_carriage_return(line: &[u8]) -> &[u8]
    ensures { result.now ≡ strip_carriage_return line.now }
{
    if line.is_empty() {
        return line;
    }
    let last = line.len() - 1;
    if line[last] == b'\r' {
        &line[..last]
    } else {
        line
    }
}

// The first line, and what stands behind it.
fn next_line(text: &[u8]) -> Option<(&[u8], &[u8])>
    ensures { MatchOption result (lines text.now ≡ [])
        (λ x. (lines text.now ≡ x.0.now ∷ lines x.1.now) × (length x.1.now < length text.now)) }
{
    if text.is_empty() {
        return None;
    }
    match newline_in(text) {
        Some(end) => Some((without_carriage_return(&text[..end]), &text[end + 1..])),
        None => Some((text, &text[text.len()..])),
    }
}

// Adds what this line says, which is nothing where it is empty.
fn add_line(records: &mut Records, alloc: Global, line: &[u8], number: u64) -> Result<(), RunFault>
    ensures good { OnOk result (is_good line.now ≡ true) }
    ensures added { OnOk result (AddsStatements records.old records.new
        (option_to_list (statement_of line.now))) }
    ensures err { IfErr result (IsLineFault line.now number) }
{
    if line.is_empty() {
        return Ok(());
    }
    let Some(statement) = statement_of(line) else {
        return Err(RunFault::BadLine(number));
    };
    add_statement(records, alloc, statement)?;
    Ok(())
}

/// The records that the lines of an input say, or `BadLine` with the number of the first bad line. Takes
/// memory for the records, and time linear in the input's length.
pub fn records_of(alloc: Global, text: &[u8]) -> Result<Records, RunFault>
    ensures good { OnOk result (IsAllGood text.now) }
    ensures ok { IfOk result (λ r. AreRecordsOf
        (statements_of text.now) r.packages.items r.links.items r.workspace) }
    ensures err { IfErr result (IsReadingFault text.now) }
{
    let mut records = no_records(alloc)?;
    let mut rest = text;
    let mut passed = 0;
    while let Some((line, after)) = next_line(rest) {
        add_line(&mut records, alloc, line, passed + 1)?;
        rest = after;
        passed += 1;
    }
    Ok(records)
}
