// A header (01: a mark): its kinds, its constructors, its readers and its writer.
#![tactic(auto, using(crate::specs::Exits::headers))]

ghost use Rattle.std.specs.Prelude.{◌≡◌};
ghost use Rattle.image.specs.Layout.{header, free_header, fresh_header, updated_header, anti_header, is_blank, has_zero, is_filled, is_payload};
ghost use Rattle.image.specs.Line.{header_line, store_line};
ghost use Rattle.image.specs.Requires.{HeaderFits, board_at, held_header};

#[derive(Clone, Copy, Debug, PartialEq, Eq)]
pub struct Header {
    pub kind: u32,
    // 01: the label
    pub epoch: u32,
    pub uid: u32,
    pub board: u32,
}

impl Header {
    pub const FREE: u32 = 0;

    pub const ALLOC: u32 = 1;

    pub const UPDATE: u32 = 2;

    // an anti-payload
    pub const DELETE: u32 = 3;

    // The board of jobs.
    pub const JOBS: u32 = 1;

    // The board of the hand-over queue.
    pub const QUEUE: u32 = 2;

    // How many words a header has.
    pub const WORDS: usize = 4;

    pub fn free() -> Self
        ensures { result ≡ free_header }
    {
        Header {
            kind: Header::FREE,
            epoch: 0,
            uid: 0,
            board: 0,
        }
    }

    // The first version of a job.
    pub fn fresh(epoch: u32, uid: u32, board: u32) -> Self
        ensures { result ≡ fresh_header epoch uid board }
    {
        Header {
            kind: Header::ALLOC,
            epoch,
            uid,
            board,
        }
    }

    // A later version of the payload `old`.
    pub fn updated(epoch: u32, old: Header) -> Self
        ensures { result ≡ updated_header epoch old }
    {
        Header {
            kind: Header::UPDATE,
            epoch,
            uid: old.uid,
            board: old.board,
        }
    }

    // The anti-payload that ends the job of the payload `old`.
    pub fn anti(epoch: u32, old: Header) -> Self
        ensures { result ≡ anti_header epoch old }
    {
        Header {
            kind: Header::DELETE,
            epoch,
            uid: old.uid,
            board: old.board,
        }
    }

    // Four zeros?
    pub fn is_blank(self) -> bool
        ensures { result ≡ is_blank self }
    {
        self == Header::free()
    }

    // Is any word 0? Such a header counts as free: a store of it, or of zeros over it, was cut or is not whole yet.
    pub fn has_zero(self) -> bool
        ensures { result ≡ has_zero self }
    {
        if self.kind == Header::FREE {
            return true;
        }
        if self.epoch == 0 {
            return true;
        }
        if self.uid == 0 {
            return true;
        }
        self.board == 0
    }

    pub fn is_filled(self) -> bool
        ensures { result ≡ is_filled self }
    {
        if self.has_zero() {
            return false;
        }
        self.kind <= Header::DELETE
    }

    pub fn is_payload(self) -> bool
        ensures { result ≡ is_payload self }
    {
        if self.has_zero() {
            return false;
        }
        self.kind <= Header::UPDATE
    }
}

pub fn board_at(img: &[u32], n: usize, s: usize) -> u32
    requires { HeaderFits img.now n s }
    ensures { result ≡ board_at img.now s }
{
    crate::words::board(img, n, s)
}

pub fn header_at(img: &[u32], n: usize, s: usize) -> Header
    requires { HeaderFits img.now n s }
    ensures { result ≡ header img.now s }
{
    crate::words::header(img, n, s)
}

#[tactic(auto, using(crate::specs::Exits::laws))]
pub fn set_header(img: &mut [u32], n: usize, s: usize, h: Header)
    requires { HeaderFits img.old n s }
    ensures { img.new ≡ store_line img.old (header_line s h) }
{
    let b = 3 + Header::WORDS * s;
    img[b] = h.kind;
    img[b + 1] = h.epoch;
    img[b + 2] = h.uid;
    img[b + 3] = h.board;
}

// A slot's header, from one image to the other: a part of the source goes into that part of the target.
#[tactic(auto, using(crate::specs::Exits::laws))]
pub fn copy_header(src: &[u32], dst: &mut [u32], n: usize, s: usize)
    requires { HeaderFits src.now n s × HeaderFits dst.old n s }
    ensures { dst.new ≡ store_line dst.old (held_header src.now s) }
{
    let b = 3 + Header::WORDS * s;
    let e = b + Header::WORDS;
    crate::line::move_line(&src[b..e], &mut dst[b..e]);
}
