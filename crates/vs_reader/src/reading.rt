//! The reading of a whole text: its header, the records that declare the instance, and the rows behind them.

ghost use Rattle.std.specs.Prelude.{◌≡◌, ◌≤◌, ◌<◌, ◌^◌, ℕ, List, [], ◌∷◌, length, IfOk, IfErr, IsTrue, MatchOption, true};
ghost use Rattle.csv.specs.Records.{fields_of};
ghost use Rattle.vs_instance.specs.Problem.{Problem};
ghost use Rattle.vs_reader.specs.declared.limits.TheConstants.{MAX_BYTES};
ghost use Rattle.vs_reader.specs.Rows.{Row, AreCounted, all_fields};
ghost use Rattle.vs_reader.specs.Names.{NameLists};
ghost use Rattle.vs_reader.specs.Versions.{HasHeader};
ghost use Rattle.vs_reader.specs.InstanceText.{AddAll, Makes, nothing_yet};
ghost use Rattle.vs_reader.specs.Refusals.{HasMisfit};
ghost use Rattle.vs_reader.specs.RecordNumbers.{HasNumbers};
ghost use Rattle.vs_reader.specs.Drafts.{declared_of, IsSound};
ghost use Rattle.vs_reader.specs.Texts.{IsRefused, StandsFor, StandsForInstance};
ghost use Rattle.vs_reader.specs.Left.{AreLeft, GivesNext, IsOpen};
ghost use Rattle.vs_reader.specs.ReadErrors.{RefusesAs, IsRefusedError, error_at};
ghost use Rattle.vs_reader.specs.Declarations.{DeclareOrRefuse};
ghost use Rattle.vs_reader.specs.Heads.{HeadOrRefuse};

use crate::draft::Draft;
use crate::input::{Input, Timetable};
use crate::names::Names;
use crate::record::{RecordError, is_result};
use crate::refused::{ReadError, Refused, Why};
use crate::rows::{RowBuilder, Rows};
use crate::salted::Salted;
use crate::text_records::TextRecords;
use crate::version::Version;
use std::alloc::Global;
use vs_instance::{Instance, NewError, Parts};
use vs_types::Memory;

/// What the records of an instance declare.
#[derive(Drop)]
pub struct Declarations {
    pub draft: Draft,
    /// How many records come before the first `result` record.
    pub before: u32,
    /// Whether there is a `result` record.
    pub in_rest: bool,
}

/// What the records up to the first `result` record give.
#[derive(Drop)]
pub struct Head {
    pub instance: Instance,
    pub names: Names,
    /// How many records come before the first `result` record.
    pub before: u32,
    /// Whether there is a `result` record.
    pub in_rest: bool,
}

/// The instance that a text stands for, with its names and the rows from its first `result` record on. Else
/// the first refusal of the text.
pub fn read(alloc: Global, bytes: &[u8]) -> Result<Input, ReadError>
    requires { length bytes.now ≤ MAX_BYTES }
    ensures found { IfOk result (λ input.
        StandsFor bytes.now input.instance input.names input.before input.rest) }
    ensures only { IfOk result (λ input. (p : Problem) (names : NameLists) (before : ℕ) (rest : List Row)
        → StandsFor bytes.now p names before rest
        → (p ≡ input.instance) × (names ≡ input.names) × (before ≡ input.before) × (rest ≡ input.rest)) }
    ensures refused { IfErr result (RefusesAs (IsRefused bytes.now)) }
    ensures none { IfErr result (λ e. IsRefusedError e
        → (p : Problem) (names : NameLists) (before : ℕ) (rest : List Row)
        → ¬ (StandsFor bytes.now p names before rest)) }
    ensures counted { IfOk result (λ input. AreCounted input.before input.rest) }
{
    let mut records = TextRecords::new(alloc, bytes);
    let head = read_head(alloc, Salted::of_text(bytes), &mut records)?;
    let rest = read_rest(alloc, &mut records, head.in_rest)?;
    let before = u64::from(head.before);
    Ok(Input {
        instance: head.instance,
        names: head.names,
        before,
        rest,
    })
}

/// The instance that a text stands for, with its names; else the first refusal of the text. It answers as `read` does,
/// and goes no further than the first `result` record.
pub fn read_instance(alloc: Global, bytes: &[u8]) -> Result<Timetable, ReadError>
    requires { length bytes.now ≤ MAX_BYTES }
    ensures found { IfOk result (λ timetable.
        StandsForInstance bytes.now timetable.instance timetable.names) }
    ensures only { IfOk result (λ timetable.
        (p : Problem) (names : NameLists) (before : ℕ) (rest : List Row)
        → StandsFor bytes.now p names before rest
        → (p ≡ timetable.instance) × (names ≡ timetable.names)) }
    ensures refused { IfErr result (RefusesAs (IsRefused bytes.now)) }
    ensures none { IfErr result (λ e. IsRefusedError e
        → (p : Problem) (names : NameLists) (before : ℕ) (rest : List Row)
        → ¬ (StandsFor bytes.now p names before rest)) }
{
    let mut records = TextRecords::new(alloc, bytes);
    let head = read_head(alloc, Salted::of_text(bytes), &mut records)?;
    Ok(Timetable {
        instance: head.instance,
        names: head.names,
    })
}

/// What the records up to the first `result` record give, that one read as well. This hasher finds the names.
fn read_head(alloc: Global, hasher: Salted, records: &mut TextRecords) -> Result<Head, ReadError>
    requires { IsOpen records.old }
    ensures read { (rows : List Row) → AreLeft records.old rows → HeadOrRefuse rows records.new result }
    ensures goes_on { IfOk result (λ head. IsTrue head.in_rest → IsOpen records.new) }
{
    let Some(version) = read_header(records)? else {
        return Err(ReadError::Refused(Refused {
            row: 1,
            why: Why::NoHeader,
        }));
    };
    let declarations = read_declarations(alloc, hasher, version, records)?;
    let (instance, names) = made(alloc, version, declarations.draft)?;
    Ok(Head {
        instance,
        names,
        before: declarations.before,
        in_rest: declarations.in_rest,
    })
}

/// The version that the next record says, `instance` and 1, 2 or 3. None where it says none, or there is no record.
fn read_header(records: &mut TextRecords) -> Result<Option<Version>, Memory>
    ensures { IfOk result (λ said. (rows : List Row) → AreLeft records.old rows → MatchOption said
        ((version : Version) → ¬ (HasHeader version rows))
        (λ version. HasHeader version rows × GivesNext records.new rows true)) }
{
    if !records.next()? {
        return Ok(None);
    }
    Ok(Version::of(&records.current))
}

/// Reads the records of the instance that come next, by the rules of this version, and the first `result` record behind
/// them. This hasher finds the names.
fn read_declarations(
    alloc: Global,
    hasher: Salted,
    version: Version,
    records: &mut TextRecords,
) -> Result<Declarations, ReadError>
    requires { IsOpen records.old }
    ensures { (rows : List Row) → AreLeft records.old rows
        → DeclareOrRefuse version rows records.new result }
{
    let mut draft = Draft::new(alloc, hasher);
    for number in 2..u32::MAX {
        let found = records.next()?;
        if !found || is_result(&records.current) {
            return Ok(Declarations {
                draft,
                before: number - 1,
                in_rest: found,
            });
        }
        if let Err(e) = draft.add(version, number, &records.current) {
            return Err(refused_at(number, e));
        }
    }
    unreachable!()
}

/// The error of the record with this number.
fn refused_at(number: u32, error: RecordError) -> ReadError
    ensures { result ≡ error_at number error }
{
    match error {
        RecordError::Refused(why) => ReadError::Refused(Refused {
            row: u64::from(number),
            why,
        }),
        RecordError::Memory => ReadError::Memory,
    }
}

/// The rows from the current record on, where there are any.
fn read_rest(alloc: Global, records: &mut TextRecords, any: bool) -> Result<Rows, Memory>
    requires { IsTrue any → IsOpen records.old }
    ensures rows { IfOk result (λ rest. (rows : List Row) → GivesNext records.old rows any → rest ≡ rows) }
    ensures few_rows { IfOk result (λ rest. length rest < 2 ^ 32) }
    ensures few_fields { IfOk result (λ rest. length (all_fields rest) < 2 ^ 32) }
{
    if !any {
        return Ok(RowBuilder::new(alloc).into_rows());
    }
    let mut rest = RowBuilder::of(alloc, &records.current)?;
    for _count in 1..u32::MAX {
        if !records.next()? {
            return Ok(rest.into_rows());
        }
        rest.push(&records.current)?;
    }
    unreachable!()
}

/// What is declared by the rules of this version, as an instance and its names.
fn made(alloc: Global, version: Version, draft: Draft) -> Result<(Instance, Names), ReadError>
    requires sound { IsSound version (declared_of draft) }
    requires few { length draft.deadheads.items < 2 ^ 32 }
    ensures found { IfOk result (λ made.
        Makes version (declared_of draft) made.0 × (made.1 ≡ draft.names)) }
    ensures refused { IfErr result (RefusesAs (λ refused. (records : List Row)
        → AddAll version nothing_yet records (declared_of draft) → HasNumbers draft.numbers records
        → HasMisfit version records refused)) }
    ensures none { IfErr result (λ e. IsRefusedError e
        → (p : Problem) → ¬ (Makes version (declared_of draft) p)) }
{
    let Draft {
        names,
        deadheads,
        layers,
        trips,
        numbers,
    } = draft;
    let parts = Parts {
        stops: names.stops() as u32,
        deadheads,
        layers,
        trips,
        most: version.most(),
    };
    match Instance::new(alloc, parts) {
        Ok(instance) => Ok((instance, names)),
        Err(NewError::Misfit(misfit)) => Err(ReadError::Refused(Refused {
            row: u64::from(numbers.of_misfit(misfit)),
            why: Why::Misfit(misfit),
        })),
        Err(NewError::Memory) => Err(ReadError::Memory),
    }
}
