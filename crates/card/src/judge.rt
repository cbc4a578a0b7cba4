// The scan of a file, one block at a time.
ghost use Rattle.std.specs.Prelude.{◌≡◌, ◌||◌, ◌<◌, ◌^◌, ◌/◌, ltb, length};
ghost use Rattle.view.specs.Refusals.{limit};
ghost use Rattle.card.specs.Answers.{answer_of};
ghost use Rattle.card.specs.Scanning.{begun, heading, scanned, scan_of, scan_wrong, scan_answer};

use crate::{Header, Refusal, Scan, block};
use call_check::LIMIT;

pub fn too_large(rows: usize, cols: usize) -> bool
    ensures { result ≡ ltb limit rows || ltb limit cols }
{
    LIMIT < rows || LIMIT < cols
}

impl Scan {
    // Before the first block.
    pub fn new() -> Scan
        ensures { result ≡ begun }
    {
        Scan {
            blocks: 0,
            torn: false,
            wrong: false,
            header: Header {
                kind: 0,
                rows: 0,
                cols: 0,
            },
        }
    }

    // The whole blocks of a file.
    #[tactic(auto, unfolding(crate::specs::Scanning::scan_of))]
    pub fn of(card: &[u8]) -> Scan
        ensures { result ≡ scan_of card.now (length card.now / 512) }
    {
        let mut scan = Scan::new();
        for k in 0..card.len() / 512 {
            scan = scan.step(&card[512 * k..512 * k + 512]);
        }
        scan
    }

    // The header that counts from the next block b on: block 0's own, then the one that is kept.
    #[tactic(auto, unfolding(crate::specs::Scanning::heading))]
    fn heading(self, b: &[u8]) -> Header
        ensures { result ≡ heading self.blocks self.header b.now }
    {
        if self.blocks == 0 {
            block::header_of(b)
        } else {
            self.header
        }
    }

    // One block more.
    #[tactic(auto, unfolding(crate::specs::Scanning::scanned))]
    pub fn step(self, b: &[u8]) -> Scan
        requires { self.blocks < 2 ^ 63 }
        ensures { result ≡ scanned self b.now }
    {
        let header = self.heading(b);
        Scan {
            blocks: self.blocks + 1,
            torn: block::torn_block(b) || self.torn,
            wrong: block::departs(header, self.blocks, b) || self.wrong,
            header,
        }
    }

    // Whether a file that ends after the scan is wrong.
    #[tactic(auto, unfolding(crate::specs::Scanning::scan_wrong))]
    fn is_wrong(self) -> bool
        ensures { result ≡ scan_wrong self }
    {
        self.header.kind > 1 || self.blocks != self.header.blocks() || self.wrong
    }

    // Why a file that ends `rest` bytes after the scan is not read to a slab of `room` numbers, if so.
    #[tactic(auto, unfolding(crate::specs::Scanning::scan_answer))]
    pub fn judge(self, rest: usize, room: usize) -> Result<(), Refusal>
        ensures { answer_of result ≡ scan_answer limit self rest room }
    {
        let h = self.header;
        if rest != 0 || self.torn {
            Err(Refusal::Torn)
        } else if self.is_wrong() {
            Err(Refusal::Wrong)
        } else if too_large(usize::from(h.rows), usize::from(h.cols)) {
            Err(Refusal::TooLarge)
        } else if room < h.count() {
            Err(Refusal::TooShort)
        } else {
            Ok(())
        }
    }
}
