// The view of a value and the UTF-8 question, for callers in C and Rust. A slice is a pointer and its count of bytes.
#![tactic(auto)]

ghost use Rattle.std.specs.Prelude.{◌≡◌};
ghost use Rattle.bounds.specs.Refusals.{why_number, if_accepted};
ghost use Rattle.views.specs.View.{make_view};
ghost use Rattle.views.specs.Made.{view_why};
ghost use Rattle.text_exports.specs.Told.{text_of};

use bounds::Refusal;

// Is a text well formed, 1 or 0, and where does its first ill-formed sequence begin? In a well-formed text the place is its end.
#[repr(C)]
#[derive(Clone, Copy)]
pub struct Text {
    pub yes: u64,
    pub place: usize,
}

#[unsafe(no_mangle)]
pub extern "C" fn tambuyeel_utf8(x: &[u8]) -> Text
    ensures { result ≡ text_of x.now }
{
    let place = utf8::first_bad(x);
    Text {
        yes: u64::from(place == x.len()),
        place,
    }
}

// Writes the view of a value that stands in `block` at `offset` and answers 0; or answers the refusal's number, the view's bytes as they came.
#[unsafe(no_mangle)]
pub extern "C" fn tambuyeel_make_view(x: &[u8], block: u32, offset: u32, view: &mut [u8; 16]) -> u64
    ensures value { result ≡ why_number (view_why x.now) }
    ensures view_after { view.new ≡ if_accepted (view_why x.now) (make_view x.now block offset) view.old }
{
    let made = views::make_view(x, block, offset);
    match made.why {
        Ok(()) => {
            let v = made.view;
            *view = v;
            0
        }
        Err(r) => r.number() as u64,
    }
}
