//! The views behind a step that ends without a fault.
ghost use Rattle.std.specs.Prelude.{◌≡◌, ◌∷◌, [], IfOk, map};
ghost use Rattle.view_core.specs.Moves.{BranchesByAbend, BranchesByCode, told, told_abend, told_code};

use crate::bits::{bits_ended, codes_at};
use crate::scene::{PlainView, Scene};
use jcl_plan::outcome::{Abend, Code, Outcome};
use jcl_plan::plan::Test;
use std::alloc::{AllocError, Global};
use std::rc::Rc;
use view_domain::crossed::{Branch, Move, Stop};

/// A scene that several views may show.
pub(crate) fn shared(alloc: Global, scene: Scene) -> Result<Rc<Scene>, AllocError>
    ensures { IfOk result (λ rc. rc.value ≡ scene) }
{
    match Rc::new(alloc, scene) {
        Ok(rc) => Ok(rc),
        Err(_) => Err(AllocError),
    }
}

/// Step n ended by this code.
fn move_by_code(
    alloc: Global,
    n: usize,
    tests: &[Test],
    bits: &[bool],
    abended: bool,
    scene: &Rc<Scene>,
    code: Code,
) -> Result<Move<PlainView>, AllocError>
    ensures { IfOk result (λ m. told m ≡ told_code n tests.now bits.now abended scene.now.value code) }
{
    let outcome = Outcome::Code(code);
    Ok(Move {
        outcome,
        view: PlainView {
            scene: scene.clone()?,
            abended,
            met: bits_ended(alloc, n, outcome, tests, bits)?,
        },
    })
}

/// Step n ended by one of these codes.
fn moves_by_code(
    alloc: Global,
    n: usize,
    tests: &[Test],
    bits: &[bool],
    abended: bool,
    scene: &Rc<Scene>,
    codes: &[Code],
) -> Result<Vec<Move<PlainView>>, AllocError>
    ensures { IfOk result (λ moves. map told moves.items ≡ map (told_code n tests.now bits.now abended scene.now.value) codes.now) }
{
    let mut moves = Vec::new(alloc);
    for code in codes {
        moves.push(move_by_code(alloc, n, tests, bits, abended, scene, *code)?)?;
    }
    Ok(moves)
}

/// What step n comes to by a code, where it leaves this scene or meets a fault, and these tests are kept.
pub(crate) fn by_code(
    alloc: Global,
    n: usize,
    tests: &[Test],
    bits: &[bool],
    abended: bool,
    end: Result<Scene, Stop>,
) -> Result<Branch<PlainView>, AllocError>
    ensures { IfOk result (λ branch. BranchesByCode n tests.now bits.now abended end branch) }
{
    match end {
        Err(stop) => Ok(Branch::Stops(stop)),
        Ok(scene) => {
            let scene = shared(alloc, scene)?;
            let codes = codes_at(alloc, n, tests)?;
            let moves = moves_by_code(
                alloc,
                n,
                tests,
                bits,
                abended,
                &scene,
                codes.representatives(),
            )?;
            Ok(Branch::Leads(moves))
        }
    }
}

/// What a step comes to by an ABEND, which meets no test.
pub(crate) fn by_abend(
    alloc: Global,
    bits: Vec<bool>,
    end: Result<Scene, Stop>,
) -> Result<Branch<PlainView>, AllocError>
    ensures { IfOk result (λ branch. BranchesByAbend bits.items end branch) }
{
    match end {
        Err(stop) => Ok(Branch::Stops(stop)),
        Ok(scene) => {
            let scene = shared(alloc, scene)?;
            let mut moves = Vec::new(alloc);
            moves.push(Move {
                outcome: Outcome::Abend(Abend::User(Code::zero())),
                view: PlainView {
                    scene,
                    abended: true,
                    met: bits,
                },
            })?;
            Ok(Branch::Leads(moves))
        }
    }
}
