//! One record of a script, read from the front of some bytes.
ghost use Rattle.std.specs.Prelude.{◌≡◌, Ok, Err};
ghost use Rattle.script.specs.Records.{blank, body_of, collector_grant, if_long, kind_number, kind_of, lane_grant, laying, note_post, record_at, rest_at, ticket_post};

use crate::fault::Fault;

/// What a record asks for.
#[derive(Clone, Copy, Debug, PartialEq, Eq)]
pub enum Kind {
    /// Lay a line for tickets.
    LayTickets = 1,
    /// Lay a line for notes.
    LayNotes = 2,
    /// Begin the post of a ticket.
    PostTicket = 3,
    /// Begin the post of a note.
    PostNote = 4,
    /// Grant a lane.
    GrantLane = 5,
    /// Begin a collect.
    BeginCollect = 6,
    /// Grant the collector.
    GrantCollector = 7,
    /// Settle the collect.
    Settle = 8,
    /// Drain the crew.
    Drain = 9,
    /// Report both totals.
    Report = 10,
}

/// The kind that a number in a script stands for.
impl TryFrom<u16> for Kind {
    type Error = Fault;

    ghost try_from_gives = { λ number kind. kind ≡ kind_of number };

    fn try_from(number: u16) -> Result<Kind, Fault> {
        match number {
            1 => Ok(Kind::LayTickets),
            2 => Ok(Kind::LayNotes),
            3 => Ok(Kind::PostTicket),
            4 => Ok(Kind::PostNote),
            5 => Ok(Kind::GrantLane),
            6 => Ok(Kind::BeginCollect),
            7 => Ok(Kind::GrantCollector),
            8 => Ok(Kind::Settle),
            9 => Ok(Kind::Drain),
            10 => Ok(Kind::Report),
            _ => Err(Fault::UnknownKind),
        }
    }
}

impl Kind {
    /// The number that stands for the kind in a script.
    pub fn number(self) -> u16
        ensures number { result ≡ kind_number self }
        ensures stands { kind_of result ≡ Ok self }
    {
        self as u16
    }
}

/// The numbers of a record, as they stand in the script. A number that the kind does not have is 0.
// Plain numbers, not an enum with a body for each kind: a record is handed out as it stands in the script.
#[derive(Clone, Copy)]
pub struct Record {
    /// Which record it is: the number of its kind. In a record that was read it stands for one; in one made by hand it may be any.
    pub kind: u16,
    /// The lane that a post or a lane's grant is for.
    pub lane: u16,
    /// How many lanes a laying asks for.
    pub lanes: u16,
    /// How many cells a laying gives each lane.
    pub cells: u16,
    /// The stamp that a laying starts with.
    pub start: u64,
    /// A ticket's frame number.
    pub frame: u32,
    /// A ticket's place.
    pub place: u32,
    /// A ticket's length.
    pub length: u32,
    /// Which reading a note is; a number here, since what it means is tested after the record's place.
    pub tag: u16,
    /// A note's value: a whole number, or the bits of a float.
    pub value: u32,
    /// How often a grant is given at most.
    pub times: u16,
}

impl Record {
    /// A record of this kind whose other numbers are 0. Written out: a default would have kind 0, which stands for none.
    fn blank(kind: Kind) -> Record
        ensures { result ≡ blank kind }
    {
        Record {
            kind: kind.number(),
            lane: 0,
            lanes: 0,
            cells: 0,
            start: 0,
            frame: 0,
            place: 0,
            length: 0,
            tag: 0,
            value: 0,
            times: 0,
        }
    }
}

/// The first record of `input`, and the bytes after it.
pub fn read_record(input: &[u8]) -> Result<(Record, &[u8]), Fault>
    ensures { elim result [ Ok p ↦ ((record_at input.now ≡ Ok p.0) × (p.1.now ≡ rest_at input.now)) | Err e ↦ record_at input.now ≡ Err e ] }
{
    let &[l0, l1, k0, k1, ..] = input else {
        return Err(Fault::CutShort);
    };
    let len = u16::from_le_bytes([l0, l1]) as usize;
    if len < 4 || input.len() < len {
        return Err(Fault::CutShort);
    }
    let kind = Kind::try_from(u16::from_le_bytes([k0, k1]))?;
    let record = read_body(kind, &input[4..len])?;
    Ok((record, &input[len..]))
}

/// The record of this kind whose body is `body`. The two come apart: what a body may be depends on the kind.
fn read_body(kind: Kind, body: &[u8]) -> Result<Record, Fault>
    ensures { result ≡ body_of kind body.now }
{
    match kind {
        Kind::LayTickets | Kind::LayNotes => read_laying(kind, body),
        Kind::PostTicket => read_ticket_post(body),
        Kind::PostNote => read_note_post(body),
        Kind::GrantLane => read_lane_grant(body),
        Kind::GrantCollector => read_collector_grant(body),
        Kind::BeginCollect | Kind::Settle | Kind::Drain | Kind::Report => read_bare(kind, body),
    }
}

/// A laying of this kind: lanes, cells and the start stamp.
fn read_laying(kind: Kind, body: &[u8]) -> Result<Record, Fault>
    ensures { result ≡ if_long 12 body.now (laying kind body.now) }
{
    let &[n0, n1, c0, c1, s0, s1, s2, s3, s4, s5, s6, s7] = body else {
        return Err(Fault::CutShort);
    };
    Ok(Record {
        lanes: u16::from_le_bytes([n0, n1]),
        cells: u16::from_le_bytes([c0, c1]),
        start: u64::from_le_bytes([s0, s1, s2, s3, s4, s5, s6, s7]),
        ..Record::blank(kind)
    })
}

/// The post of a ticket: its lane, frame, place and length.
fn read_ticket_post(body: &[u8]) -> Result<Record, Fault>
    ensures { result ≡ if_long 14 body.now (ticket_post body.now) }
{
    let &[l0, l1, f0, f1, f2, f3, p0, p1, p2, p3, n0, n1, n2, n3] = body else {
        return Err(Fault::CutShort);
    };
    Ok(Record {
        lane: u16::from_le_bytes([l0, l1]),
        frame: u32::from_le_bytes([f0, f1, f2, f3]),
        place: u32::from_le_bytes([p0, p1, p2, p3]),
        length: u32::from_le_bytes([n0, n1, n2, n3]),
        ..Record::blank(Kind::PostTicket)
    })
}

/// The post of a note: its lane, which reading it is, and the value.
fn read_note_post(body: &[u8]) -> Result<Record, Fault>
    ensures { result ≡ if_long 8 body.now (note_post body.now) }
{
    let &[l0, l1, t0, t1, v0, v1, v2, v3] = body else {
        return Err(Fault::CutShort);
    };
    Ok(Record {
        lane: u16::from_le_bytes([l0, l1]),
        tag: u16::from_le_bytes([t0, t1]),
        value: u32::from_le_bytes([v0, v1, v2, v3]),
        ..Record::blank(Kind::PostNote)
    })
}

/// The grant of a lane: which lane, and how often at most.
fn read_lane_grant(body: &[u8]) -> Result<Record, Fault>
    ensures { result ≡ if_long 4 body.now (lane_grant body.now) }
{
    let &[l0, l1, t0, t1] = body else {
        return Err(Fault::CutShort);
    };
    Ok(Record {
        lane: u16::from_le_bytes([l0, l1]),
        times: u16::from_le_bytes([t0, t1]),
        ..Record::blank(Kind::GrantLane)
    })
}

/// The grant of the collector: how often at most.
fn read_collector_grant(body: &[u8]) -> Result<Record, Fault>
    ensures { result ≡ if_long 2 body.now (collector_grant body.now) }
{
    let &[t0, t1] = body else {
        return Err(Fault::CutShort);
    };
    Ok(Record {
        times: u16::from_le_bytes([t0, t1]),
        ..Record::blank(Kind::GrantCollector)
    })
}

/// A record of this kind, which has no body.
fn read_bare(kind: Kind, body: &[u8]) -> Result<Record, Fault>
    ensures { result ≡ if_long 0 body.now (blank kind) }
{
    let [] = body else {
        return Err(Fault::CutShort);
    };
    Ok(Record::blank(kind))
}
