// A run's width and base, from its rows, and the exact bytes that it takes.
use crate::frames::{self, Frame};
use crate::states::Form;
use crate::{bits, cells, patched};

#[derive(Clone, Copy)]
pub(crate) struct Run {
    pub form: Form,
    pub width: u64,
    pub base: u64,
    pub bytes: u64,
}

// Direct at 64 bits, which every row has; its bytes are not asked for.
pub(crate) fn widest() -> Run {
    Run {
        form: Form::Direct,
        width: 31,
        base: 0,
        bytes: 0,
    }
}

// Packed values behind a head of so many bytes.
fn bytes(head: u64, count: u64, width: u64) -> u64 {
    head.wrapping_add(bits::whole_bytes(count.wrapping_mul(width)) >> 3)
}

// The run whose form and first row a state has.
pub(crate) fn of(rows: &[i64], signed: bool, form: Form) -> Run {
    match form {
        Form::Short => short(rows, signed),
        Form::Direct => direct(rows, signed),
        Form::Fixed => Run {
            form,
            width: 0,
            base: 0,
            bytes: delta_head(rows, signed),
        },
        Form::Packed => packed(rows, signed),
        Form::Patched(class) => patched(rows, signed, class),
    }
}

fn short(rows: &[i64], signed: bool) -> Run {
    let number = bits::number(cells::row(rows, 0), signed);
    let width = bits::whole_bytes(bits::needs(number)) >> 3;
    Run {
        form: Form::Short,
        width,
        base: 0,
        bytes: width.wrapping_add(1),
    }
}

fn direct(rows: &[i64], signed: bool) -> Run {
    let class = bits::class(bits::needs(numbers(rows, signed)));
    Run {
        form: Form::Direct,
        width: bits::code(class),
        base: 0,
        bytes: bytes(2, rows.len() as u64, bits::width(class)),
    }
}

fn packed(rows: &[i64], signed: bool) -> Run {
    let class = bits::class(bits::needs(magnitudes(rows))).max(1);
    Run {
        form: Form::Packed,
        width: bits::code(class),
        base: 0,
        bytes: bytes(
            delta_head(rows, signed),
            (rows.len() as u64).wrapping_sub(2),
            bits::width(class),
        ),
    }
}

// The patched run over the base that its frame has; direct where its writer does not accept it, or direct is no longer: the frame's own
// figures are those of the bases that it had on its way.
fn patched(rows: &[i64], signed: bool, class: u64) -> Run {
    let width = bits::width(class);
    let base = base(rows, width);
    let direct = direct(rows, signed);
    match patched::bytes(rows, base, width) {
        Some(bytes) if bytes < direct.bytes => Run {
            form: Form::Patched(class),
            width,
            base,
            bytes,
        },
        _ => direct,
    }
}

// Header, first row and first step of a delta run.
fn delta_head(rows: &[i64], signed: bool) -> u64 {
    let first = cells::row(rows, 0);
    let step = cells::row(rows, 1).wrapping_sub(first);
    let bits = bits::varint(bits::number(first, signed)).wrapping_add(bits::varint(bits::number(
        step, true,
    )));
    (bits >> 3).wrapping_add(2)
}

// The bits of all numbers, one over the other.
fn numbers(rows: &[i64], signed: bool) -> u64 {
    let mut all = 0;
    for row in rows {
        all |= bits::number(row.cast_unsigned(), signed);
    }
    all
}

// The bits of all magnitudes behind the first step, one over the other: the steps, turned round in a run that falls.
fn magnitudes(rows: &[i64]) -> u64 {
    let first = cells::row(rows, 0);
    let mut before = cells::row(rows, 1);
    let falls = before.wrapping_sub(first) >> 63 == 1;
    let mut all = 0;
    for row in rows.iter().skip(2) {
        let row = row.cast_unsigned();
        all |= if falls {
            before.wrapping_sub(row)
        } else {
            row.wrapping_sub(before)
        };
        before = row;
    }
    all
}

// The base that the rows' frame comes to.
fn base(rows: &[i64], width: u64) -> u64 {
    let first = cells::row(rows, 0);
    let mut frame = Frame::open(width, 0, first, frames::head(first));
    for (at, row) in rows.iter().enumerate().skip(1) {
        frame.take(width, at as u64, row.cast_unsigned());
    }
    frame.base(width)
}
