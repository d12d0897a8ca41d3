// Format: a fresh store.
#![tactic(auto, using(crate::specs::Exits::laws))]

ghost use Rattle.std.specs.Prelude.{◌≡◌, length};
ghost use Rattle.image.specs.Layout.{image_words};
ghost use Rattle.transient.specs.Store.{store, outcome};
ghost use Rattle.format.specs.Format.{fresh_image, format};
ghost use Rattle.format.specs.Requires.{Fitting, format_fits, fresh_store};

use reply::Refusal;

fn format_fits(working: usize, persistent: usize, transient: usize, n: usize, w: usize) -> bool
    ensures { result ≡ format_fits working persistent transient n w }
{
    if image::shape::sizes_ok(n, w) {
        let k = image::shape::image_words(n, w);
        if working != k {
            return false;
        }
        if persistent != k {
            return false;
        }
        transient::notes::threads_ok(transient, n)
    } else {
        false
    }
}

fn set_fresh(img: &mut [u32], n: u32, w: u32)
    requires { length img.old ≡ image_words n w }
    ensures { img.new ≡ fresh_image n w }
{
    image::contents::clear(img);
    img[0] = n;
    img[1] = w;
    img[2] = 2;
}

fn set_store(
    working: &mut [u32],
    persistent: &mut [u32],
    transient: &mut [u32],
    slots: u32,
    words: u32,
)
    requires { Fitting working.old persistent.old transient.old slots words }
    ensures { store working.new persistent.new transient.new ≡ fresh_store (length transient.old) slots words }
{
    set_fresh(working, slots, words);
    set_fresh(persistent, slots, words);
    transient::notes::set_blank(transient, slots, 1, 1);
}

// Makes a store of these sizes in the memory lent, whatever it holds.
pub fn format(
    working: &mut [u32],
    persistent: &mut [u32],
    transient: &mut [u32],
    slots: u32,
    words: u32,
) -> Result<(), Refusal>
    ensures { outcome result working.new persistent.new transient.new ≡ format (store working.old persistent.old transient.old) slots words }
{
    let n = slots as usize;
    let w = words as usize;
    if format_fits(working.len(), persistent.len(), transient.len(), n, w) {
        set_store(working, persistent, transient, slots, words);
        Ok(())
    } else {
        Err(Refusal::BadSizes)
    }
}
