ghost use Rattle.std.specs.Prelude.{◌≡◌, ◌<◌, ◌≤◌, ◌+◌, ◌^◌, length, IfOk, OnOk};
ghost use Rattle.fate_io.specs.Sending.{sent_since, Sends};
ghost use Rattle.nona_tree.specs.Value.{is_zero};
ghost use Rattle.fate_io.specs.Numbered.{texts_from};
ghost use Rattle.morta_text.specs.Texts.{var_line, array_line, cell_line, cell_text, array_text, var_text, declared_text, memory_text};

use crate::joining::join;
use fate_io::{SendFault, Sink, send};
use nona_store::Store;
use nona_tree::{ArrayDecl, Program, VarDecl};
use std::alloc::{AllocError, Global};

/// The line of a variable.
fn line_of_var(alloc: Global, name: &[u8], value: i64) -> Result<Vec<u8>, AllocError>
    ensures { IfOk result (λ text. text.items ≡ var_line name.now value) }
{
    let end = format!(in alloc; " = {value}\n")?;
    join(alloc, b"var ".as_slice(), name, end.as_bytes())
}

/// The line of an array.
fn line_of_array(alloc: Global, name: &[u8], count: usize) -> Result<Vec<u8>, AllocError>
    ensures { IfOk result (λ text. text.items ≡ array_line name.now count) }
{
    let end = format!(in alloc; " {count}\n")?;
    join(alloc, b"array ".as_slice(), name, end.as_bytes())
}

/// The line of a cell.
fn line_of_cell(alloc: Global, name: &[u8], place: usize, value: i64) -> Result<Vec<u8>, AllocError>
    ensures { IfOk result (λ text. text.items ≡ cell_line name.now place value) }
{
    let end = format!(in alloc; "[{place}] = {value}\n")?;
    join(alloc, b"".as_slice(), name, end.as_bytes())
}

/// Whether a cell has no line: its value is 0.
fn is_blank(value: i64) -> bool
    ensures { result ≡ is_zero value }
{
    value == 0
}

/// Sends the line of a cell, and nothing where its value is 0.
fn send_cell<K: Sink>(
    alloc: Global,
    name: &[u8],
    place: usize,
    value: i64,
    out: &mut K,
) -> Result<(), SendFault>
    ensures later { K.faults out.old ≤ K.faults out.new }
    ensures sent { Sends (sent_since K.written K.faults out.old out.new) (cell_text name.now place value) result }
    ensures kept { OnOk result (K.faults out.new ≡ K.faults out.old) }
{
    if is_blank(value) {
        return Ok(());
    }
    match line_of_cell(alloc, name, place, value) {
        Ok(text) => send(out, &text),
        Err(_) => Err(SendFault::NoMemory),
    }
}

/// Sends the line of each cell whose value isn't 0.
fn send_cells<K: Sink>(
    alloc: Global,
    name: &[u8],
    cells: &[i64],
    out: &mut K,
) -> Result<(), SendFault>
    ensures later { K.faults out.old ≤ K.faults out.new }
    ensures sent { Sends (sent_since K.written K.faults out.old out.new) (texts_from (cell_text name.now) 0 cells.now) result }
    ensures kept { OnOk result (K.faults out.new ≡ K.faults out.old) }
{
    for (place, value) in cells.iter().enumerate() {
        send_cell(alloc, name, place, *value, out)?;
    }
    Ok(())
}

/// Sends the line of an array.
fn send_count<K: Sink>(
    alloc: Global,
    name: &[u8],
    count: usize,
    out: &mut K,
) -> Result<(), SendFault>
    ensures later { K.faults out.old ≤ K.faults out.new }
    ensures sent { Sends (sent_since K.written K.faults out.old out.new) (array_line name.now count) result }
    ensures kept { OnOk result (K.faults out.new ≡ K.faults out.old) }
{
    match line_of_array(alloc, name, count) {
        Ok(text) => send(out, &text),
        Err(_) => Err(SendFault::NoMemory),
    }
}

/// Sends the line of an array, and then those of its cells.
fn send_array<K: Sink>(
    alloc: Global,
    name: &[u8],
    cells: &[i64],
    out: &mut K,
) -> Result<(), SendFault>
    ensures later { K.faults out.old ≤ K.faults out.new }
    ensures sent { Sends (sent_since K.written K.faults out.old out.new) (array_text name.now cells.now) result }
    ensures kept { OnOk result (K.faults out.new ≡ K.faults out.old) }
{
    match send_count(alloc, name, cells.len(), out) {
        Ok(()) => send_cells(alloc, name, cells, out),
        Err(fault) => Err(fault),
    }
}

/// Sends the declared array with this id, which is there.
fn send_declared<K: Sink>(
    alloc: Global,
    store: &Store,
    id: usize,
    declared: &ArrayDecl,
    out: &mut K,
) -> Result<(), SendFault>
    requires there { id < length store.now.arrays }
    requires fits { id < 2 ^ 32 }
    ensures later { K.faults out.old ≤ K.faults out.new }
    ensures sent { Sends (sent_since K.written K.faults out.old out.new) (declared_text store.now id declared.now) result }
    ensures kept { OnOk result (K.faults out.new ≡ K.faults out.old) }
{
    let name = declared.name.text.as_slice();
    send_array(alloc, name, store.cells(id as u32), out)
}

/// Sends each declared array, of which the first has the id 1.
fn send_arrays<K: Sink>(
    alloc: Global,
    store: &Store,
    arrays: &[ArrayDecl],
    out: &mut K,
) -> Result<(), SendFault>
    requires there { length arrays.now + 1 ≤ length store.now.arrays }
    requires few { length arrays.now + 1 < 2 ^ 32 }
    ensures later { K.faults out.old ≤ K.faults out.new }
    ensures sent { Sends (sent_since K.written K.faults out.old out.new) (texts_from (declared_text store.now) 1 arrays.now) result }
    ensures kept { OnOk result (K.faults out.new ≡ K.faults out.old) }
{
    for (number, declared) in arrays.iter().enumerate() {
        send_declared(alloc, store, number + 1, declared, out)?;
    }
    Ok(())
}

/// Sends the line of the variable with this number, which is there.
fn send_var<K: Sink>(
    alloc: Global,
    store: &Store,
    number: usize,
    declared: &VarDecl,
    out: &mut K,
) -> Result<(), SendFault>
    requires there { number < length store.now.scalars }
    requires fits { number < 2 ^ 32 }
    ensures later { K.faults out.old ≤ K.faults out.new }
    ensures sent { Sends (sent_since K.written K.faults out.old out.new) (var_text store.now number declared.now) result }
    ensures kept { OnOk result (K.faults out.new ≡ K.faults out.old) }
{
    let value = store.scalar(number as u32);
    match line_of_var(alloc, declared.name.text.as_slice(), value) {
        Ok(text) => send(out, &text),
        Err(_) => Err(SendFault::NoMemory),
    }
}

/// Sends the line of each variable.
fn send_vars<K: Sink>(
    alloc: Global,
    store: &Store,
    vars: &[VarDecl],
    out: &mut K,
) -> Result<(), SendFault>
    requires there { length vars.now ≤ length store.now.scalars }
    requires few { length vars.now < 2 ^ 32 }
    ensures later { K.faults out.old ≤ K.faults out.new }
    ensures sent { Sends (sent_since K.written K.faults out.old out.new) (texts_from (var_text store.now) 0 vars.now) result }
    ensures kept { OnOk result (K.faults out.new ≡ K.faults out.old) }
{
    for (number, declared) in vars.iter().enumerate() {
        send_var(alloc, store, number, declared, out)?;
    }
    Ok(())
}

/// Sends what a store holds of a program, each line in one put: `var NAME = VALUE` for each variable in text order; and
/// then for each declared array, in text order, `array NAME COUNT` and `NAME[PLACE] = VALUE` for each cell that isn't 0,
/// where places count from 0. The store has each variable and each array of the program, of which there are fewer than 2^32.
///
/// `WriteFailed` comes where a put failed, `NoMemory` where memory for a line ran out. A front of the lines went out.
pub fn send_memory<K: Sink>(
    alloc: Global,
    program: &Program,
    store: &Store,
    out: &mut K,
) -> Result<(), SendFault>
    requires vars { length program.now.vars ≤ length store.now.scalars }
    requires arrays { length program.now.arrays + 1 ≤ length store.now.arrays }
    requires few { length program.now.vars + length program.now.arrays + 1 < 2 ^ 32 }
    ensures later { K.faults out.old ≤ K.faults out.new }
    ensures sent { Sends (sent_since K.written K.faults out.old out.new) (memory_text program.now store.now) result }
    ensures kept { OnOk result (K.faults out.new ≡ K.faults out.old) }
{
    match send_vars(alloc, store, program.vars.as_slice(), out) {
        Ok(()) => send_arrays(alloc, store, program.arrays.as_slice(), out),
        Err(fault) => Err(fault),
    }
}
