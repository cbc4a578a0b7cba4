// A record of a card call, and the call made again.
ghost use Rattle.std.specs.Prelude.{◌≡◌, ◌+◌, ◌*◌, ◌≤◌, length};

use card::{Header, Kind};
use encoding::little::{byte, u64_at};
use recorded_calls::{fill, same};

// The most numbers of a slab, and the most bytes of a card or a buffer.
const SLAB: usize = 144;

const CARD: usize = 4096;

// Where the lent numbers and bytes begin.
const LENT: usize = 48;

// The answer of a call that is not refused.
const DONE: u8 = 0;

// What reading hands back on a refusal.
const NO_HEADER: Header = Header {
    kind: 0,
    rows: 0,
    cols: 0,
};

// A record that has as many bytes as its lengths ask: `numbers` of the slab, `room` bytes of the card or the buffer.
#[derive(Clone, Copy)]
pub struct CardCall<'a> {
    bytes: &'a [u8],
    numbers: usize,
    room: usize,
    ghost fits: { (numbers ≤ 144) × (room ≤ 4096) × (48 + 8 * numbers + room ≡ length bytes.now) },
}

impl<'a> CardCall<'a> {
    pub fn of(bytes: &'a [u8]) -> Option<CardCall<'a>> {
        let numbers = u64_at(bytes, 8) as usize;
        let room = u64_at(bytes, 40) as usize;
        if numbers <= SLAB && room <= CARD && bytes.len() == LENT + 8 * numbers + room {
            Some(CardCall {
                bytes,
                numbers,
                room,
            })
        } else {
            None
        }
    }

    // The number that stands at a place of the record.
    fn number(self, at: usize) -> usize {
        u64_at(self.bytes, at) as usize
    }

    fn answer(self) -> u8 {
        byte(self.bytes, 2)
    }

    fn rows(self) -> usize {
        self.number(16)
    }

    fn cols(self) -> usize {
        self.number(24)
    }

    // What is handed back: the kind of a card that is read, the length of one that is written.
    fn handed(self) -> usize {
        self.number(32)
    }

    fn kind(self) -> Kind {
        if byte(self.bytes, 1) == 2 {
            Kind::Complex
        } else {
            Kind::Real
        }
    }

    // Whether the call gives the record's answer, what it hands back, and the numbers and bytes that it leaves.
    pub fn agrees(self) -> bool {
        if byte(self.bytes, 3) == 1 {
            self.write_agrees()
        } else {
            self.read_agrees()
        }
    }

    // Before a card is read every number of the slab is -77.25. The slab after the call stands behind the card.
    fn read_agrees(self) -> bool {
        let mut space = [-77.25; SLAB];
        let slab = &mut space[..self.numbers];
        let end = LENT + self.room;
        let (answer, header) = match card::read(&self.bytes[LENT..end], slab) {
            Ok(header) => (DONE, header),
            Err(refusal) => (u8::from(refusal), NO_HEADER),
        };
        answer == self.answer()
            && usize::from(header.rows) == self.rows()
            && usize::from(header.cols) == self.cols()
            && usize::from(header.kind) == self.handed()
            && same(self.bytes, end, slab)
    }

    // Before a card is written every byte of the buffer is 0xa5. The buffer after the call stands behind the slab.
    fn write_agrees(self) -> bool {
        let mut space = [0.0; SLAB];
        let mut bytes = [0xa5u8; CARD];
        let slab = &mut space[..self.numbers];
        let buffer = &mut bytes[..self.room];
        fill(self.bytes, LENT, slab);
        let (answer, length) = match card::write(
            self.kind(),
            self.rows(),
            self.cols(),
            slab,
            buffer,
        ) {
            Ok(length) => (DONE, length),
            Err(refusal) => (u8::from(refusal), 0),
        };
        answer == self.answer()
            && length == self.handed()
            && self.bytes[LENT + 8 * self.numbers..] == buffer[..]
    }
}
