// Loading a stored tree (docs/FORMAT.md, Load): walks the fields of a tree file, judges each, and writes its step.
#![tactic(auto)]

mod body;
mod clear;
mod field;
mod judge;
mod nodes;
mod rows;

ghost use Rattle.std.specs.Prelude.{◌≡◌, ◌+◌, ◌*◌, ◌≤◌, length};
ghost use Rattle.definition.specs.Slices.{old, new};
ghost use Rattle.definition.specs.Stored as S;
ghost use Rattle.stored.specs.Table.{as_found};
ghost use Rattle.stored.specs.Walk.{WroteStep, Finishes, AllWalked, walked, answer};

use clear::clear_from;
use definition::limit;
use definition::refusal::{Refusal, number_and_count};
use field::{Field, Found, step};
use judge::{Phase, judge};
use slices::put;

// Where a walk stands: the offset of the next field, and how many steps were written.
#[derive(Clone, Copy)]
pub struct Reached {
    pub at: usize,
    pub count: usize,
}

// Writes the step of a field with so many children, and goes on after the field.
fn write_step(reached: Reached, found: Found, children: usize, records: &mut [u32]) -> Reached
    requires { (children ≡ length (as_found found).children) × (children ≤ 65536)
        × (reached.at + 3 + found.size ≤ 65536) × (4 * reached.count + 4 ≤ length records.old) }
    ensures { WroteStep reached found records.old result records.new }
{
    let word = put(records, 4 * reached.count, found.number as u32);
    let word = put(records, word, children as u32);
    let word = put(records, word, (reached.at + 3) as u32);
    put(records, word, found.size as u32);
    Reached {
        at: reached.at + 3 + found.size,
        count: reached.count + 1,
    }
}

// Goes on after a field that is skipped.
fn skip(reached: Reached, size: usize) -> Reached
    requires { reached.at + 3 + size ≤ 65536 }
    ensures { (result.at ≡ reached.at + 3 + size) × (result.count ≡ reached.count) }
{
    Reached {
        at: reached.at + 3 + size,
        count: reached.count,
    }
}

// The walk over a file: writes a step for each field. Gives their count, with what follows them in the slice as it was.
fn walk(file: &[u8], records: &mut [u32]) -> Result<usize, Refusal>
    requires { (length file.now ≤ 65536) × (87380 ≤ length records.old) }
    ensures { AllWalked (walked file.now) result records }
{
    let mut waiting = [0u8; limit::STEPS];
    let mut phase = Phase {
        top: limit::STEPS,
        last: None,
    };
    let mut reached = Reached { at: 0, count: 0 };
    loop {
        match step(file, reached.at)? {
            Field::End => return finish(phase, reached.count),
            Field::Skipped(size) => reached = skip(reached, size),
            Field::Found(found) => {
                let Some(judged) = judge(found.role, phase, &mut waiting) else {
                    return Err(Refusal::BadTree);
                };
                phase = judged.phase;
                reached = write_step(reached, found, judged.children, records);
            }
        }
    }
}

// The end of a file, after so many steps.
fn finish(phase: Phase, count: usize) -> Result<usize, Refusal>
    ensures { Finishes phase count result }
{
    match phase.last {
        None => Err(Refusal::BadTree),
        Some(_) => Ok(count),
    }
}

// Load after its test of the slice.
fn steps(file: &[u8], records: &mut [u32]) -> Result<usize, Refusal>
    requires { 87380 ≤ length records.old }
    ensures { AllWalked (S.load file.now) result records }
{
    if limit::FILE_BYTES < file.len() {
        return Err(Refusal::BadField);
    }
    walk(file, records)
}

// Load: writes the steps of a stored file. Gives their count.
pub fn load(file: &[u8], records: &mut [u32]) -> Result<usize, Refusal>
    ensures { answer result records.new ≡ S.load_into file.now records.old }
{
    if records.len() < limit::STEP_WORDS {
        return Err(Refusal::SliceLength);
    }
    let loaded = steps(file, records);
    clear_from(records, 4 * loaded.unwrap_or(0));
    loaded
}

// `load` in the form for C.
pub fn dn_load(file: &[u8], records: &mut [u32], count: &mut usize) -> u32
    ensures { record { number = result; count = count.new; records = records.new }
        ≡ S.load_into file.now records.old }
{
    number_and_count(load(file, records), count)
}
