//! The editor for C and Python: `include/cadedit.h` declares these functions.
#![tactic(auto)]

ghost use Rattle.std.specs.Prelude.{◌≡◌, ◌≢◌, ◌⊎◌, ℕ, List, [], Some, None, drop, length};
ghost use Rattle.csv.specs.Reading.{strip_bom};
ghost use Rattle.cad_history.specs.Depth.{IsDepth};
ghost use Rattle.cad_files.specs.FaultTexts.{fault_text};
ghost use Rattle.cad_files.specs.declared.faults.PlanFault.{PlanFault as Fault};
ghost use Rattle.cad_files.specs.declared.faults.PlanFault.TheVariants as faults;
ghost use Rattle.cad_session.specs.Opening.{IsFaultyPlan};
ghost use Rattle.cad_handle.specs.Held.{flag_of};
ghost use Rattle.cad_handle.specs.Sessions.{IsUsable, IsOpened, IsSubmitted, IsUndone, IsDoneUntold, HasAnswer, IsPosition, IsShapeOf, KeepsAnswer};
ghost use Rattle.cadedit_c.specs.Told.{told};

use cad_files::PlanFault;
use cad_handle::{Handle, open_plan};
use cad_history::Depth;
use cad_rows::Memory;
use cad_session::SubmitFault;
use number_hash::NumberHash;
use std::alloc::Global;

/// It was done.
const DONE: u32 = 0;

/// The map is closed; of `cadedit_open`, open.
const CLOSED: u32 = 1;

/// The plan is at fault.
const PLAN: u32 = 2;

/// The text isn't one record.
const NOT_ONE: u32 = 3;

/// The depth isn't from 1 to 1,000.
const DEPTH: u32 = 4;

/// Memory ran out, and nothing has changed.
const MEMORY: u32 = 5;

/// Memory ran out once the record was carried out, and its answer isn't told.
const UNTOLD: u32 = 6;

/// The map has no such row.
const UNKNOWN: u32 = 7;

/// Opens a closed map on a plan, with so many edits that can be undone. Tells a plan's fault: as much of its text as fits
/// into the room, and how long it is.
#[unsafe(no_mangle)]
pub extern "C" fn cadedit_open(
    alloc: Global,
    handle: &mut Handle,
    plan: &[u8],
    depth: u64,
    seed: u64,
    room: &mut [u8],
    whole: &mut u64,
) -> u32
    requires { IsUsable handle.old.kept.state }
    ensures usable { IsUsable handle.new.kept.state }

    // 0: the map was closed, and is open on the plan's map.
    ensures done { result ≡ 0 → IsOpened (strip_bom plan.now) depth
        handle.old.kept.state handle.new.kept.state × IsDepth depth }

    // 1: it was open.
    ensures was_open { result ≡ 1 → flag_of handle.old.kept.state ≡ 1 }

    // 2: the plan has the fault that is told, unless it is that of a reader.
    ensures faulty { result ≡ 2 → (fault : Fault) × (handle.old.kept.state ≡ None)
        × (fault ≢ faults.Memory) × (fault ≢ faults.Read → IsFaultyPlan (strip_bom plan.now) fault)
        × (room.new ≡ told (fault_text fault) room.old)
        × (whole.new ≡ length (fault_text fault)) }

    // 4: there is no such depth. 5: memory ran out.
    ensures no_depth { result ≡ 4 → (handle.old.kept.state ≡ None) × (¬ IsDepth depth) }
    ensures memory { result ≡ 5 → (handle.old.kept.state ≡ None) × IsDepth depth }

    // There is no other status. But for 0 the map is as it was, and but for 2 nothing is told.
    ensures status { (result ≡ 0) ⊎ ((result ≡ 1) ⊎ ((result ≡ 2) ⊎ ((result ≡ 4) ⊎ (result ≡ 5)))) }
    ensures kept { result ≢ 0 → handle.new.kept.state ≡ handle.old.kept.state }
    ensures quiet { result ≢ 2 → (room.new ≡ room.old) × (whole.new ≡ 0) }
{
    *whole = 0;
    if let Some(state) = handle.take(alloc) {
        handle.put(state);
        return CLOSED;
    }
    let Some(depth) = Depth::new(depth as usize) else {
        return DEPTH;
    };
    match open_plan(alloc, NumberHash::seeded(seed), plan, depth) {
        Ok(state) => {
            handle.put(state);
            DONE
        }
        Err(fault) => tell_fault(alloc, fault, room, whole),
    }
}

/// Tells why a plan isn't opened, and gives the status.
fn tell_fault(alloc: Global, fault: PlanFault, room: &mut [u8], whole: &mut u64) -> u32
    ensures told { result ≡ 2 → (fault ≢ faults.Memory)
        × (room.new ≡ told (fault_text fault) room.old)
        × (whole.new ≡ length (fault_text fault)) }
    ensures quiet { result ≢ 2 → (room.new ≡ room.old) × (whole.new ≡ whole.old) }
    ensures status { (result ≡ 2) ⊎ (result ≡ 5) }
{
    if fault == PlanFault::Memory {
        return MEMORY;
    }
    match format!(in alloc; "{fault}") {
        Ok(text) => {
            *whole = tell(text.as_bytes(), room);
            PLAN
        }
        Err(_) => MEMORY,
    }
}

/// Does one record, and tells its answer: as much of it as fits into the room, and how long it is.
#[unsafe(no_mangle)]
pub extern "C" fn cadedit_submit(
    alloc: Global,
    handle: &mut Handle,
    text: &[u8],
    room: &mut [u8],
    whole: &mut u64,
) -> u32
    requires { IsUsable handle.old.kept.state }
    ensures usable { IsUsable handle.new.kept.state }

    // 0: the text's one record has the answer that is told, and it is kept.
    ensures done { result ≡ 0 → (answer : List ℕ) × IsSubmitted (strip_bom text.now) answer
        handle.old.kept.state handle.new.kept.state
        × (room.new ≡ told answer room.old) × (whole.new ≡ length answer) }

    // 1: the map was closed, and is.
    ensures closed { result ≡ 1
        → (handle.old.kept.state ≡ None) × (handle.new.kept.state ≡ None) }

    // 3: the text isn't one record. 5: memory ran out. Nothing was done.
    ensures not_one { result ≡ 3 → IsUndone handle.old.kept.state handle.new.kept.state }
    ensures memory { result ≡ 5 → IsUndone handle.old.kept.state handle.new.kept.state }

    // 6: the record was carried out, and memory ran out for its answer.
    ensures untold { result ≡ 6 → IsDoneUntold (strip_bom text.now)
        handle.old.kept.state handle.new.kept.state }

    // There is no other status. But for 0 nothing is told.
    ensures status { (result ≡ 0) ⊎ ((result ≡ 1) ⊎ ((result ≡ 3) ⊎ ((result ≡ 5) ⊎ (result ≡ 6)))) }
    ensures quiet { result ≢ 0 → (room.new ≡ room.old) × (whole.new ≡ 0) }
{
    *whole = 0;
    let Some(mut state) = handle.take(alloc) else {
        return CLOSED;
    };
    match state.submit(alloc, text) {
        Ok(()) => {
            *whole = tell(state.answer.as_slice(), room);
            handle.put(state);
            DONE
        }
        Err(SubmitFault::NotOne) => {
            handle.put(state);
            NOT_ONE
        }
        Err(SubmitFault::Undone) => {
            handle.put(state);
            MEMORY
        }
        Err(SubmitFault::Done) => {
            handle.put(state);
            UNTOLD
        }
    }
}

/// Tells the latest answer from a place on: as much of it as fits into the room, and how long the whole answer is.
#[unsafe(no_mangle)]
pub extern "C" fn cadedit_answer(
    alloc: Global,
    handle: &mut Handle,
    from: u64,
    room: &mut [u8],
    whole: &mut u64,
) -> u32
    requires { IsUsable handle.old.kept.state }
    ensures usable { IsUsable handle.new.kept.state }

    // 0: the map is open, and this is its latest answer.
    ensures done { result ≡ 0 → (answer : List ℕ) × HasAnswer answer handle.old.kept.state
        × (room.new ≡ told (drop from answer) room.old) × (whole.new ≡ length answer) }

    // 1: the map is closed, and nothing is told.
    ensures closed { result ≡ 1 → (handle.old.kept.state ≡ None)
        × (room.new ≡ room.old) × (whole.new ≡ 0) }

    // There is no other status, and the map is as it was.
    ensures status { (result ≡ 0) ⊎ (result ≡ 1) }
    ensures kept { handle.new.kept.state ≡ handle.old.kept.state }
{
    *whole = 0;
    let Some(state) = handle.take(alloc) else {
        return CLOSED;
    };
    let _ = tell(state.answer_from(from), room);
    *whole = state.answer.len() as u64;
    handle.put(state);
    DONE
}

/// Tells where a point of the map lies, in millimetres, x to the east and y to the north.
#[unsafe(no_mangle)]
pub extern "C" fn cadedit_point(
    alloc: Global,
    handle: &mut Handle,
    number: u32,
    x: &mut i64,
    y: &mut i64,
) -> u32
    requires { IsUsable handle.old.kept.state }
    ensures usable { IsUsable handle.new.kept.state }

    // 0: the map that is shown has the point there. 7: it has no point of this number.
    ensures done { result ≡ 0 → IsPosition number (Some (record { x = x.new; y = y.new }))
        handle.old.kept.state }
    ensures unknown { result ≡ 7 → IsPosition number None handle.old.kept.state }

    // 1: the map is closed.
    ensures closed { result ≡ 1 → handle.old.kept.state ≡ None }

    // There is no other status. But for 0 nothing is told, and the map is as it was.
    ensures status { (result ≡ 0) ⊎ ((result ≡ 1) ⊎ (result ≡ 7)) }
    ensures quiet { result ≢ 0 → (x.new ≡ x.old) × (y.new ≡ y.old) }
    ensures kept { handle.new.kept.state ≡ handle.old.kept.state }
{
    let Some(state) = handle.take(alloc) else {
        return CLOSED;
    };
    let found = state.point(number);
    handle.put(state);
    match found {
        Some(position) => {
            *x = position.x;
            *y = position.y;
            DONE
        }
        None => UNKNOWN,
    }
}

/// Tells the polygon of a parcel of the map, as well-known text in metres whose rings pass no point twice, and keeps it as
/// the latest answer: as much of it as fits into the room, and how long it is.
#[unsafe(no_mangle)]
pub extern "C" fn cadedit_shape(
    alloc: Global,
    handle: &mut Handle,
    number: u32,
    room: &mut [u8],
    whole: &mut u64,
) -> u32
    requires { IsUsable handle.old.kept.state }
    ensures usable { IsUsable handle.new.kept.state }

    // 0: this is the shape of the parcel of the map that is shown, and it is kept.
    ensures done { result ≡ 0 → (text : List ℕ)
        × IsShapeOf number (Some text) handle.old.kept.state
        × KeepsAnswer text handle.old.kept.state handle.new.kept.state
        × (room.new ≡ told text room.old) × (whole.new ≡ length text) }

    // 7: the map that is shown has no parcel of this number. 5: memory ran out. No answer is kept.
    ensures unknown { result ≡ 7 → IsShapeOf number None handle.old.kept.state
        × KeepsAnswer [] handle.old.kept.state handle.new.kept.state }
    ensures memory { result ≡ 5 → KeepsAnswer [] handle.old.kept.state handle.new.kept.state }

    // 1: the map was closed, and is.
    ensures closed { result ≡ 1
        → (handle.old.kept.state ≡ None) × (handle.new.kept.state ≡ None) }

    // There is no other status. But for 0 nothing is told.
    ensures status { (result ≡ 0) ⊎ ((result ≡ 1) ⊎ ((result ≡ 5) ⊎ (result ≡ 7))) }
    ensures quiet { result ≢ 0 → (room.new ≡ room.old) × (whole.new ≡ 0) }
{
    *whole = 0;
    let Some(mut state) = handle.take(alloc) else {
        return CLOSED;
    };
    match state.shape(alloc, number) {
        Ok(true) => {
            *whole = tell(state.answer.as_slice(), room);
            handle.put(state);
            DONE
        }
        Ok(false) => {
            handle.put(state);
            UNKNOWN
        }
        Err(Memory) => {
            handle.put(state);
            MEMORY
        }
    }
}

/// Closes a map, open or not, and gives its memory back.
#[unsafe(no_mangle)]
pub extern "C" fn cadedit_close(alloc: Global, handle: &mut Handle)
    ensures { handle.new.kept.state ≡ None }
{
    handle.close(alloc);
}

/// Puts as much of a text as fits into a room, and gives the text's length.
fn tell(text: &[u8], room: &mut [u8]) -> u64
    ensures room { room.new ≡ told text.now room.old }
    ensures whole { result ≡ length text.now }
{
    let count = text.len().min(room.len());
    room[..count].copy_from_slice(&text[..count]);
    text.len() as u64
}
