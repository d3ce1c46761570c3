// Which steps search the filters, for which identifier word, and how many filters a search compares.
ghost use Rattle.std.specs.Prelude.{◌≡◌};
ghost use Rattle.comparisons.specs.Searches as searches;

use model::{Controller, Core, Mailbox, Step};

// Loopback: the frame of the mailbox on the wire ended with result r.
#[tactic(auto, unfolding(crate::specs::Searches::looped_word))]
fn looped_word(s: Option<Mailbox>, c: Core, r: u8) -> Option<u32>
    ensures { result ≡ searches.looped_word s c r }
{
    let m = s?;
    if r == 0 && control::lbkm(c.control) && !c.filters.finit {
        let x = receive::sent_frame(mailboxes::at(c.transmit.mailboxes, m));
        Some(x.identifier)
    } else {
        None
    }
}

#[tactic(auto, unfolding(crate::specs::Searches::accepted_word))]
fn accepted_word(c: Core, e: Step) -> Option<u32>
    ensures { result ≡ searches.accepted_word c e }
{
    match e {
        Step::Outcome(r) => looped_word(c.transmit.queue.transmitting, c, r),
        Step::Receive(x) => Some(x.identifier),
        _ => None,
    }
}

// The identifier word that the filters are searched for, if they are. c is the controller before the step, code the step's code.
// By the number in the step's answer (model::Stepped), as the definition.
#[tactic(auto, unfolding(crate::specs::Searches::searched_word))]
pub fn searched_word(c: Core, e: Step, code: u8) -> Option<u32>
    ensures { result ≡ searches.searched_word c e code }
{
    if code == 0 { accepted_word(c, e) } else { None }
}

// How many filters the search for the word w compares.
pub fn compared_of(z: Controller, w: u32) -> u32
    ensures { result ≡ searches.compared_of z w }
{
    let g = z.core.filters;
    let banks = z.banks;
    let s = filter::search(g.mode, g.scale, g.assignment, g.activation, &banks, w);
    s.compared
}
