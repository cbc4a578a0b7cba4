// The fields of a record. A field past the record's end reads as 0.
ghost use Rattle.std.specs.Prelude.{◌≡◌, ◌≤◌, ◌<◌, ◌==◌, get_or, IfSome};
ghost use Rattle.recorded_calls.specs.Numbers.{Decodes, routine_number, kind_number, given_number};

use crate::routine::{Kind, Routine, UnknownNumber};
use encoding::little::{byte, double_at};
use view::{Answer, Diag, Side, Trans, UpLo, View};

// The most cells of a slab.
pub(crate) const SLAB: usize = 144;

// The number for the answer of a routine that the list does not have.
const NO_ROUTINE: u8 = 255;

// A record's bytes, without the length before them.
#[derive(Clone, Copy)]
pub struct Record<'a> {
    pub bytes: &'a [u8],
}

// A view of a call, with the length of its slab in elements.
#[derive(Clone, Copy)]
pub struct Arg {
    pub view: View,
    pub len: usize,
}

impl Record<'_> {
    pub fn routine(self) -> Result<Routine, UnknownNumber>
        ensures { Decodes routine_number 16 (get_or self.entry.bytes.now 0 0) result }
    {
        Routine::try_from(self.routine_byte())
    }

    // The number of the routine, which in a list may be any.
    pub fn routine_byte(self) -> u8
        ensures { result ≡ get_or self.entry.bytes.now 0 0 }
    {
        byte(self.bytes, 0)
    }

    // The number of the answer of the call, which in a list may be any.
    pub fn answer(self) -> u8
        ensures { result ≡ get_or self.entry.bytes.now 2 0 }
    {
        byte(self.bytes, 2)
    }

    // Whether the answer is a call's, which gave none where the list has no such routine.
    pub fn has_answer(self, given: Option<Answer>) -> bool
        ensures { result ≡ (given_number given == get_or self.entry.bytes.now 2 0) }
    {
        given.map_or(NO_ROUTINE, u8::from) == self.answer()
    }

    // The number of views.
    fn views(self) -> usize
        ensures value { result ≡ get_or self.entry.bytes.now 3 0 }
        ensures bound { result < 256 }
    {
        usize::from(byte(self.bytes, 3))
    }

    // The number of the target's view, which is the last.
    pub fn target(self) -> usize
        ensures { result < 256 }
    {
        self.views().saturating_sub(1)
    }

    // Where the counts of the call's routine and kind are among those of a list.
    pub(crate) fn slot(self) -> usize {
        4 * usize::from(byte(self.bytes, 0)) + usize::from(byte(self.bytes, 1))
    }

    // Flag k of the routine's arguments; `last` where no flag has its number.
    fn flag<F: TryFrom<u8> + Drop>(self, k: usize, last: F) -> F
    where
        F::Error: Drop,
    {
        let flags = self.bytes.get(4..).unwrap_or(&[]);
        F::try_from(byte(flags, k)).unwrap_or(last)
    }

    pub fn trans(self, k: usize) -> Trans {
        self.flag(k, Trans::ConjTrans)
    }

    pub fn uplo(self, k: usize) -> UpLo {
        self.flag(k, UpLo::Lower)
    }

    pub fn diag(self, k: usize) -> Diag {
        self.flag(k, Diag::Unit)
    }

    pub fn side(self, k: usize) -> Side {
        self.flag(k, Side::Right)
    }

    // The view and the length of its slab, in the 48 bytes that begin at `at`.
    fn arg_at(self, at: usize) -> Arg {
        let number = |k| double_at(self.bytes, at, k);
        let view = View::new(
            number(0) as usize,
            number(8) as usize,
            number(16) as usize,
            number(24).cast_signed(),
            number(32).cast_signed(),
        );
        Arg {
            view,
            len: number(40) as usize,
        }
    }

    // View k of a list of checks, which has no scalars.
    pub fn check_arg(self, k: usize) -> Arg {
        self.arg_at(check_place(k))
    }

    pub fn view(self, k: usize) -> View {
        self.arg_at(place(k)).view
    }

    // The cells of slab k, and no more than a slab may have.
    pub(crate) fn length(self, k: usize) -> usize
        ensures { result ≤ 144 }
    {
        self.arg_at(place(k)).len.min(SLAB)
    }

    // The cells of the slabs before slab k.
    fn cells_before(self, k: usize) -> usize
        ensures { result ≤ 432 }
    {
        let mut cells = 0;
        for j in 0..k.min(3) {
            cells += self.length(j);
        }
        cells
    }

    // The bytes of that many cells.
    fn size(self, cells: usize) -> usize
        requires { cells ≤ 432 }
        ensures { result ≤ 3456 }
    {
        match self.number_kind() {
            Ok(Kind::F32) => 4 * cells,
            _ => 8 * cells,
        }
    }

    // Where the cells of slab k begin.
    pub(crate) fn slab_place(self, k: usize) -> usize
        ensures { result ≤ 16384 }
    {
        place(self.views()) + self.size(self.cells_before(k))
    }

    // Where the cells of the target's slab after the call begin.
    pub(crate) fn after(self) -> usize
        ensures { result ≤ 16384 }
    {
        self.slab_place(self.views())
    }

    // The views that the record's routine has; where there is no such routine, 3.
    fn routine_views(self) -> usize {
        self.routine().map_or(3, Routine::views)
    }

    // Whether slab k has no more cells than a slab may have.
    fn fits(self, k: usize) -> bool {
        self.arg_at(place(k)).len <= SLAB
    }

    // Whether a record of a call has its routine's views, and as many bytes as these ask.
    fn is_whole(self) -> bool {
        let last = self.target();
        self.views() == self.routine_views()
            && self.fits(0)
            && self.fits(1)
            && self.fits(last)
            && self.bytes.len() == self.after() + self.size(self.length(last))
    }

    // The number kind, of any record.
    fn number_kind(self) -> Result<Kind, UnknownNumber>
        ensures { Decodes kind_number 4 (get_or self.entry.bytes.now 1 0) result }
    {
        Kind::try_from(byte(self.bytes, 1))
    }

    // The number kind of a record of a call that is whole.
    pub fn kind(self) -> Option<Kind>
        ensures { IfSome result (λ k. kind_number k ≡ get_or self.entry.bytes.now 1 0) }
    {
        if self.is_whole() {
            self.number_kind().ok()
        } else {
            None
        }
    }

    // Whether a record of a check is whole.
    pub fn is_check(self) -> bool {
        let n = self.views();
        n == self.routine_views() && self.bytes.len() == check_place(n)
    }
}

// Where view k begins in a list of checks.
fn check_place(k: usize) -> usize {
    k.saturating_mul(48).saturating_add(8)
}

// Where view k begins in a list of calls, and where the cells begin, k being the number of views.
fn place(k: usize) -> usize
    ensures { k < 256 → result ≤ 12288 }
{
    k.saturating_mul(48).saturating_add(40)
}

// Where part k of the scalars begins: alpha's two parts, then beta's.
pub(crate) fn scalar_place(k: usize) -> usize {
    k.saturating_mul(8).saturating_add(8)
}
