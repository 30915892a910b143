//! Tickets, and what is counted of them.

/// How long a frame is.
const FRAME_LENGTH: u32 = 4096;

/// A frame that lies elsewhere: which one, where it starts and how long it is. As the ticket of `script`, on which nothing here stands.
#[derive(Clone, Copy, Default)]
pub struct Ticket {
    frame: u32,
    place: u32,
    length: u32,
}

impl Ticket {
    /// The ticket that a lane posts in a cycle.
    pub fn of(cycle: u32, lane: u8) -> Ticket {
        Ticket {
            frame: cycle,
            place: u32::from(lane) * FRAME_LENGTH,
            length: FRAME_LENGTH,
        }
    }
}

/// What was done: the grants, and a check over all that was delivered.
#[derive(Clone, Copy, Default)]
pub struct Tally {
    pub grants: u64,
    pub check: u64,
}

impl Tally {
    /// So many grants more.
    pub fn add(&mut self, grants: u64) {
        self.grants = self.grants.wrapping_add(grants);
    }

    /// One more word goes into the check.
    pub fn fold(&mut self, word: u64) {
        self.check = self.check.rotate_left(5).wrapping_add(word);
    }

    /// A delivered ticket goes into the check.
    pub fn fold_ticket(&mut self, ticket: Ticket) {
        let Ticket {
            frame,
            place,
            length,
        } = ticket;
        for number in [frame, place, length] {
            self.fold(u64::from(number));
        }
    }
}
