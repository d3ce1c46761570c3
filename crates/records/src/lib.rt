// The records of a bench script: the step that a record says, or why it can't be read.
#![tactic(auto)]

ghost use Rattle.std.specs.Prelude.{◌≡◌, ◌+◌, ◌≤◌, length, IfErr, IfOk};
ghost use Rattle.model.specs.Script as scripts;
ghost use Rattle.records.specs.Bodies as bodies;

use model::{Reading, Refusal, Step};

mod decode; // decode.rt: the step of a record's body

// The length of the body that a tag has.
#[tactic(auto, unfolding(model::specs::Script::body_length))]
pub fn body_length(tag: u8) -> usize
    ensures { result ≡ scripts.body_length tag }
{
    match tag {
        3 => 6,
        2 | 5 | 10 => 2,
        8 => 1,
        9 => 13,
        _ => 0,
    }
}

// The body of a record whose tag has one of N bytes, handed on as the part of the script where it lies, and the place behind it.
fn body<const N: usize>(script: &[u8], place: usize) -> Result<(&[u8], usize), Refusal>
    requires header { place + 3 ≤ length script.now }
    ensures err { IfErr result (λ r. bodies.refused script.now place N ≡ Some r) }
    ensures ok { IfOk result (λ b. bodies.refused script.now place N ≡ None) }
    ensures part { IfOk result (λ b. b.0.now ≡ scripts.part script.now (place + 3) (place + 3 + N)) }
    ensures behind { IfOk result (λ b. b.1 ≡ place + 3 + N) }
{
    if decode::number16(script, place + 1) as usize != N {
        return Err(Refusal::WrongLength);
    }
    let from = place + 3;
    if script.len() - from < N {
        return Err(Refusal::Short);
    }
    let behind = from + N;
    Ok((&script[from..behind], behind))
}

// The record that begins at a place.
#[tactic(auto, unfolding(model::specs::Script::body_length, model::specs::Script::decoded), using(crate::proofs::Headers::by_body, crate::proofs::Headers::by_refusal, crate::proofs::Headers::no_tag))]
pub fn reading(script: &[u8], place: usize) -> Reading
    ensures { result ≡ scripts.reading script.now place }
{
    if script.len() <= place {
        return Ok(None);
    }
    if script.len() - place < 3 {
        return Err(Refusal::Short);
    }
    match script[place] {
        1 => {
            let (_, behind) = body::<0>(script, place)?;
            Ok(Some((Step::Reset, behind)))
        }
        2 => {
            let (b, behind) = body::<2>(script, place)?;
            Ok(Some((decode::read_step(b), behind)))
        }
        3 => {
            let (b, behind) = body::<6>(script, place)?;
            Ok(Some((decode::write_step(b), behind)))
        }
        4 => {
            let (_, behind) = body::<0>(script, place)?;
            Ok(Some((Step::Idle, behind)))
        }
        5 => {
            let (b, behind) = body::<2>(script, place)?;
            Ok(Some((decode::bit_times_step(b), behind)))
        }
        6 => {
            let (_, behind) = body::<0>(script, place)?;
            Ok(Some((Step::Activity, behind)))
        }
        7 => {
            let (_, behind) = body::<0>(script, place)?;
            Ok(Some((Step::Start, behind)))
        }
        8 => {
            let (b, behind) = body::<1>(script, place)?;
            Ok(Some((decode::outcome_step(b), behind)))
        }
        9 => {
            let (b, behind) = body::<13>(script, place)?;
            Ok(Some((decode::receive_step(b), behind)))
        }
        10 => {
            let (b, behind) = body::<2>(script, place)?;
            Ok(Some((decode::receive_error_step(b), behind)))
        }
        _ => Err(Refusal::UnknownTag),
    }
}
