// Whose slot it is.
ghost use Rattle.std.specs.Prelude.{◌≡◌};
ghost use Rattle.image.specs.Name.{job_name, entry_name, name_at, misnamed};
ghost use Rattle.image.specs.Requires.{Slot};

use crate::header::Header;

// The name of a job or of a queue's entry: a board, and a key on it.
#[derive(Clone, Copy, Debug, PartialEq, Eq)]
pub struct Name {
    pub board: u32,
    pub key: u32,
}

impl Name {
    pub fn job(key: u32) -> Self
        ensures { result ≡ job_name key }
    {
        Name {
            board: Header::JOBS,
            key,
        }
    }

    // The entry of this order number.
    pub fn entry(order: u32) -> Self
        ensures { result ≡ entry_name order }
    {
        Name {
            board: Header::QUEUE,
            key: order,
        }
    }

    // A key that no survivor may have.
    #[tactic(auto, using(crate::specs::Exits::laws))]
    pub fn is_bad(self) -> bool
        ensures { result ≡ misnamed self }
    {
        self.key == 0 || (self.board == Header::QUEUE && crate::shape::MOST_NUMBER < self.key)
    }
}

// The name of what the slot holds.
pub fn name_at(img: &[u32], n: usize, w: usize, s: usize) -> Name
    requires { Slot img.now n w s }
    ensures { result ≡ name_at img.now n w s }
{
    crate::words::name(img, n, w, s)
}
