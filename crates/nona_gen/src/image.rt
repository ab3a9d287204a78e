//! Images of programs: the code of the main statements, and of the statements of each region.

ghost use Rattle.std.specs.Prelude.{◌≡◌, map, All, IfOk, IsTrue};
ghost use Rattle.nona_tree.specs.Entries.{is_among, regions_all};
ghost use Rattle.nona_code.specs.Main.{StandsForMain};
ghost use Rattle.nona_forms.specs.Calm.{is_calm};
ghost use Rattle.nona_stages.specs.Seen.{seen_places};
ghost use Rattle.nona_units.specs.Units.{AreUnits};
ghost use Rattle.nona_gen.specs.Gathered.{is_seen, loops_of};
ghost use Rattle.nona_gen.specs.OfSeen.{planned, image_by, planned_image, AreCalm};
ghost use Rattle.nona_gen.specs.Units.{HasCode, BodyHasCode};

use crate::gather::gather_all;
use crate::image_laws::{images_keep, seen_is_planned};
use crate::laws::main_code_stands;
use crate::main_code::emit_program;
use crate::units::{checked_has_code, generate_unit, regions_have_code};
use morta_task::{Image, RegionCode};
use nona_code::{Sound, verify};
use nona_graph::reductions;
use nona_guard::Guard;
use nona_stages::{Plans, Seen, regions};
use nona_tree::{Checked, Loop, Stmt};
use nona_units::Units;
use std::alloc::{AllocError, Global};

/// The code of statements, one for each in the same order.
fn codes_of(alloc: Global, body: &[Stmt]) -> Result<Vec<Sound>, AllocError>
    requires { All HasCode body.now }
    ensures { IfOk result (λ codes. AreUnits codes.items body.now) }
{
    let mut codes = Vec::new(alloc);
    for s in body {
        codes.push(generate_unit(alloc, s)?)?;
    }
    Ok(codes)
}

/// The region of this loop, with its plan, its guard, its reductions and the code of the statements at the top of its body.
fn region_of(alloc: Global, l: &Loop, plans: &Plans<'_>) -> Result<RegionCode, AllocError>
    requires code { BodyHasCode l.now }
    requires calm { IsTrue (is_calm l.now) }
    ensures { IfOk result (λ region. region ≡ planned plans.now l.now) }
{
    let codes = codes_of(alloc, l.body.as_slice())?;
    let plan = plans.plan(alloc, l)?;
    let guard = Guard::of(alloc, l)?;
    let reductions = reductions(alloc, l)?;
    let units = Units::of(&l.body, codes)?;
    Ok(RegionCode::of(l, plan, guard, reductions, units))
}

/// The regions of these loops, in the same order.
fn regions_of(
    alloc: Global,
    loops: &[&Loop],
    plans: &Plans<'_>,
) -> Result<Vec<RegionCode>, AllocError>
    requires code { All BodyHasCode (loops_of loops.now) }
    requires calm { AreCalm (loops_of loops.now) }
    ensures { IfOk result (λ regions. regions.items ≡ map (planned plans.now) (loops_of loops.now)) }
{
    let mut regions = Vec::new(alloc);
    for l in loops {
        regions.push(region_of(alloc, l, plans)?)?;
    }
    Ok(regions)
}

/// The regions of a program that are seen.
fn regions_in(
    alloc: Global,
    program: &Checked,
    plans: &Plans<'_>,
) -> Result<Vec<RegionCode>, AllocError>
    requires { AreCalm (regions_all (is_seen plans.now) program.now.body) }
    ensures { IfOk result (λ regions. regions.items
        ≡ map (planned plans.now) (regions_all (is_seen plans.now) program.now.body)) }
{
    regions_have_code();
    let mut loops = Vec::new(alloc);
    gather_all(program.program().body.as_slice(), plans, &mut loops)?;
    regions_of(alloc, &loops, plans)
}

/// The main code of a program, which stops at the regions that are seen.
fn main_of(alloc: Global, program: &Checked, plans: &Plans<'_>) -> Result<Sound, AllocError>
    ensures { IfOk result (λ code. StandsForMain code.instrs (is_seen plans.now) program.now.body) }
{
    checked_has_code();
    main_code_stands();
    let code = emit_program(alloc, program.program().body.as_slice(), plans)?;
    match verify(alloc, code)? {
        Some(sound) => Ok(sound),
        None => unreachable!(),
    }
}

/// The image of a checked program with the regions that are seen of it, each with its plan: the code of its main statements,
/// which stops at them, and of the statements at the top of their bodies, and the guard and the reductions of each region, all of
/// which have to be calm.
///
/// All code is verified, and stands for its statements. A place that is seen where no word `for` stands, or that of a loop
/// inside a region, names none. Takes time and memory in proportion to the program, to the affine forms of its regions' indices
/// and inner bounds and, for each region, to the scalars that are visible before it, and for each loop outside regions a time
/// logarithmic in the number of regions. It is refused for want of memory alone, and so is code of 2^31 instructions or more.
pub fn generate(alloc: Global, program: &Checked, seen: &[Seen]) -> Result<Image, AllocError>
    requires calm { AreCalm (regions_all (is_among (seen_places seen.now)) program.now.body) }
    ensures { IfOk result (λ image. image ≡ image_by program.now seen.now) }
{
    images_keep();
    let plans = Plans::of(alloc, seen)?;
    let code = main_of(alloc, program, &plans)?;
    let regions = regions_in(alloc, program, &plans)?;
    Image::assemble(alloc, &program.program().body, code, regions)
}

/// The image of a checked program: its regions are the loops from outside in that are parallel, which aren't written `seq for`
/// and whose plans have a version beside `seq`, each with its plan.
///
/// Takes time and memory as `regions` and `generate` do. It is refused for want of memory alone, and so is code of 2^31
/// instructions or more.
pub fn compile(alloc: Global, program: &Checked) -> Result<Image, AllocError>
    ensures { IfOk result (λ image. image ≡ planned_image program.now) }
{
    seen_is_planned();
    program.program();
    let seen = regions(alloc, program)?;
    generate(alloc, program, &seen)
}
