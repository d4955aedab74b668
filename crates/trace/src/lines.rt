// Lines, read strictly: the fields in their order, one space apart, and nothing after the last.
use crate::fields::{Fields, number, number_at, signed, text_at};
use calls::Call;
use records::{Position, Request, Settings};

// What a line says.
#[derive(Clone, Copy)]
pub enum Line {
    Setup { cap: u32, settings: Settings },
    Call(Call),
    // A caller's write.
    Fill { offset: u32, size: u32, byte: u8 },
}

fn unify(fields: &mut Fields<'_>) -> Option<bool> {
    match text_at(fields, b"unify=")? {
        b"0" => Some(false),
        b"1" => Some(true),
        _ => None,
    }
}

fn settings(fields: &mut Fields<'_>) -> Option<Settings> {
    Some(Settings {
        reserved: number_at(fields, b"reserved=")?,
        unify: unify(fields)?,
        policy: number_at(fields, b"policy=")?,
        minimum_segment_size: number_at(fields, b"min=")?,
        read_only: false,
    })
}

fn request(op: &[u8], fields: &mut Fields<'_>) -> Option<Request> {
    match op {
        b"bytes" => Some(Request::Bytes(number_at(fields, b"size=")?)),
        b"typed" => Some(Request::Typed {
            size: number_at(fields, b"size=")?,
            align: number_at(fields, b"align=")?,
        }),
        b"aligned" => Some(Request::Aligned {
            size: number_at(fields, b"size=")?,
            align: number_at(fields, b"align=")?,
            extra: number_at(fields, b"extra=")?,
        }),
        _ => None,
    }
}

fn position(fields: &mut Fields<'_>) -> Option<Position> {
    match text_at(fields, b"from=")? {
        b"start" => Some(Position::Start(number_at(fields, b"by=")?)),
        b"end" => Some(Position::End(number_at(fields, b"by=")?)),
        b"current" => Some(Position::Current(signed(text_at(fields, b"by=")?)?)),
        _ => None,
    }
}

fn call(op: &[u8], fields: &mut Fields<'_>) -> Option<Call> {
    match op {
        b"give" => Some(Call::Give {
            offset: number_at(fields, b"offset=")?,
            size: number_at(fields, b"size=")?,
        }),
        b"discard" => Some(Call::Discard),
        b"rewind" => Some(Call::Rewind(position(fields)?)),
        b"min" => Some(Call::SetMinimum(number_at(fields, b"size=")?)),
        b"lost" => Some(Call::AddDiscarded(number_at(fields, b"size=")?)),
        _ => Some(Call::Take(request(op, fields)?)),
    }
}

fn fill(fields: &mut Fields<'_>) -> Option<Line> {
    Some(Line::Fill {
        offset: number_at(fields, b"offset=")?,
        size: number_at(fields, b"size=")?,
        byte: number_at(fields, b"byte=")?,
    })
}

fn setup_line(mut fields: Fields<'_>) -> Option<Line> {
    let said = Line::Setup {
        cap: number(fields.next()?)?,
        settings: settings(&mut fields)?,
    };
    fields.next().is_none().then_some(said)
}

fn operation_line(mut fields: Fields<'_>) -> Option<Line> {
    let said = match fields.next()? {
        b"fill" => fill(&mut fields)?,
        op => Line::Call(call(op, &mut fields)?),
    };
    fields.next().is_none().then_some(said)
}

// What a line says, if it can be read: one with neither key at its start is looked at no further.
pub fn read_line(text: &[u8]) -> Option<Line> {
    match text.strip_prefix(b"cap=") {
        Some(rest) => setup_line(Fields::new(rest)),
        None => operation_line(Fields::new(text.strip_prefix(b"op=")?)),
    }
}
