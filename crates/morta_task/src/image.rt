ghost use Rattle.std.specs.Prelude.{◌≡◌, ◌≤◌, ◌+◌, ◌-◌, ◌<◌, ◌^◌, [], length, map, All, IfOk, Some, slice_get};
ghost use Rattle.nona_tree.specs.declared.trees.Stmt.{For};
ghost use Rattle.nona_tree.specs.Entries.{regions_all};
ghost use Rattle.nona_tree.specs.Numbers.{IsI64Stmt};
ghost use Rattle.nona_tree.specs.Scope.{IsSteady};
ghost use Rattle.nona_tree.specs.Smallness.{IsSmallLoop};
ghost use Rattle.nona_code.specs.Main.{StandsForMain};
ghost use Rattle.morta_task.specs.RegionView.{RegionView};
ghost use Rattle.morta_task.specs.ImageView.{region_places, is_region_of};
ghost use Rattle.morta_task.specs.ImageKept.{CanRun};

use crate::regions::RegionCode;
use nona_code::Sound;
use nona_tree::Stmt;
use sqlite_items::Items;
use std::alloc::{AllocError, Global};
use std::marker::Model;
use std::snapshot::Snapshot;

/// A program as it is run: the code of its main statements, and its regions with their plans and their code, in text order. Its
/// regions are the loops whose words `for` stand at its places. Contracts see the main statements and the regions; nothing of
/// the program's tree is kept when it runs.
#[derive(Drop)]
pub struct Image {
    main: Snapshot<Items<Stmt>>,
    code: Sound,
    regions: Vec<RegionCode>,
    places: Vec<u32>,
}

/// The places of the words `for` of regions.
fn places_of(alloc: Global, regions: &[RegionCode]) -> Result<Vec<u32>, AllocError>
    ensures { IfOk result (λ places. places.items ≡ map (λ (region : RegionView). region.looped.at) regions.now) }
{
    let mut places = Vec::new(alloc);
    for region in regions {
        places.push(region.place())?;
    }
    Ok(places)
}

impl Model for Image {
    ghost use Rattle.std.specs.Coded.{codes};
    ghost use Rattle.nona_tree.specs.contracts.trees.Expr as expr;
    ghost use Rattle.nona_tree.specs.contracts.trees.Stmt as stmt;
    ghost use Rattle.morta_task.specs.ImageView.{ImageView};
    ghost use Rattle.morta_task.specs.ImageInside.{image_of, IsImage};

    ghost Value = { ImageView };

    ghost coded = { Prim.hlevel (codes, expr.the_row.coded, stmt.the_row.coded) };

    ghost view = { image_of };

    ghost invariant = { IsImage };
}

impl Image {
    /// The image of these main statements, with their code and these regions, which are loops of them, in text order. Nothing
    /// of the statements is copied. Takes time and memory in proportion to the number of regions. The one error is that memory
    /// ran out.
    pub fn assemble(
        alloc: Global,
        main: &Items<Stmt>,
        code: Sound,
        regions: Vec<RegionCode>,
    ) -> Result<Image, AllocError>
        requires { CanRun code.instrs (record { main = main.now; regions = regions.items }) }
        ensures { IfOk result (λ image. image ≡ record { main = main.now; regions = regions.items }) }
    {
        let places = places_of(alloc, &regions)?;
        Ok(Image {
            main: Snapshot::of(main),
            code,
            regions,
            places,
        })
    }

    /// The code of the main statements, which stops at the regions.
    pub fn code(&self) -> &Sound
        ensures { StandsForMain result.now.instrs (is_region_of self.now) self.now.main }
    {
        &self.code
    }

    /// The regions, in text order.
    pub fn regions(&self) -> &[RegionCode]
        ensures regions { result.now ≡ self.now.regions }
        ensures loops { map (λ (region : RegionView). region.looped) result.now ≡ regions_all (is_region_of self.now) self.now.main }
        ensures few { length result.now + 1 < 2 ^ 32 }
        ensures steady { All (λ (region : RegionView). IsSteady (For region.looped) []) result.now }
        ensures small { All (λ (region : RegionView). IsSmallLoop region.looped) result.now }
        ensures numbers { All (λ (region : RegionView). IsI64Stmt (For region.looped)) result.now }
    {
        &self.regions
    }

    /// The places of the words `for` of its regions, in text order. They name its regions among the loops of its main
    /// statements.
    pub fn places(&self) -> &[u32]
        ensures { result.now ≡ region_places self.now }
    {
        &self.places
    }

    /// The region with this number, counted from 1.
    pub fn region(&self, number: u32) -> &RegionCode
        requires first { 1 ≤ number }
        requires there { number ≤ length self.now.regions }
        ensures { slice_get self.now.regions (number - 1) ≡ Some result.now }
    {
        &self.regions[number as usize - 1]
    }
}
