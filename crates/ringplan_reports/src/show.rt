//! Summaries and pictures.

ghost use Rattle.std.specs.Prelude.{OnOk};
ghost use Rattle.ringplan_reports.specs.Studies.{HasApproved, IsShown};

use crate::painting::painted;
use crate::racks::racking_of;
use crate::study::{Study, studied};
use change_text::Options;
use plan_goal::{
    Kind, Racking, aliases_of, ask_layout, dead_by, front, has_sizes, kind_of, members_with,
    nodes_of, racks_of, sizes_of,
};
use plan_moves::Progress;
use ring_names::{NodeId, Refusal};
use ring_table::{Ring, read_ring};
use ringplan_request::{Picture, Shape, Wish};
use show_picture::{Sheet, map_picture, picture};
use show_plan::{
    NodeNames, Overview, PresentRing, RingFacts, Scene, Sized, SummaryShape, Volumes, ring_summary,
    short_labels, summary,
};
use std::alloc::Global;
use texts::{Labels, Words};

#[derive(Drop)]
pub(crate) struct Shown {
    pub scene: Scene,
    pub progress: Option<Progress>,
    pub present: PresentRing,
}

/// Returns each partition's size, if the layout has sizes. Fails as `sizes_of`.
pub(crate) fn sizes_by(
    alloc: Global,
    ring: &Ring,
    options: &Options,
) -> Result<Option<Vec<u64>>, Refusal> {
    if !has_sizes(&options.layout) {
        return Ok(None);
    }
    let sizes = sizes_of(alloc, ring.q(), &options.layout)?;
    Ok(Some(sizes))
}

/// Measures what moves and remains. Fails as `sizes_by`.
pub(crate) fn volumes_of(
    alloc: Global,
    found: &Study,
    scene: &Scene,
    progress: Option<&Progress>,
    options: &Options,
) -> Result<Option<Volumes>, Refusal> {
    let approved = &found.approved;
    let Some(sizes) = sizes_by(alloc, approved.ring(), options)? else {
        return Ok(None);
    };
    let volumes = Volumes::of(alloc, approved, scene, sizes.as_slice(), progress)?;
    Ok(Some(volumes))
}

/// The dead nodes. Fails as `nodes_of`.
pub(crate) fn dead_of(
    alloc: Global,
    ring: &Ring,
    options: &Options,
) -> Result<Vec<NodeId>, Refusal> {
    let names = dead_by(alloc, options)?;
    nodes_of(alloc, ring, names.as_slice())
}

pub(crate) fn shown_by(alloc: Global, found: &Study, options: &Options) -> Result<Shown, Refusal> {
    let (ring, plan) = (found.approved.ring(), found.approved.plan());
    let progress = match &found.history {
        Some(history) => Some(Progress::of(alloc, plan, history.as_slice())?),
        None => None,
    };
    let scene = Scene::of(alloc, &found.approved, &found.cert)?;
    let dead = dead_of(alloc, ring, options)?;
    let run = progress.as_ref();
    let present = PresentRing::of(alloc, &found.approved, &scene, run, dead.as_slice())?;
    Ok(Shown {
        scene,
        progress,
        present,
    })
}

fn shape_of(asked: Shape) -> SummaryShape {
    match asked {
        Shape::Short => SummaryShape::Short,
        Shape::Whole => SummaryShape::Whole,
    }
}

pub(crate) fn racks_at_rest(
    alloc: Global,
    ring: &Ring,
    options: &Options,
) -> Result<Racking, Refusal> {
    ask_layout(ring, &options.layout)?;
    let members = members_with(alloc, ring, &[])?;
    racks_of(alloc, ring, members.as_slice(), options)
}

/// Collects what the options say. Refuses unknown names and partitions.
pub(crate) fn facts_of(
    alloc: Global,
    ring: &Ring,
    racks: Option<Labels>,
    options: &Options,
) -> Result<RingFacts, Refusal> {
    Ok(RingFacts {
        racks,
        aliases: aliases_of(alloc, ring, &options.layout)?,
        sizes: sizes_by(alloc, ring, options)?,
        dead: dead_of(alloc, ring, options)?,
    })
}

fn show_ring(alloc: Global, bytes: &[u8], options: &Options) -> Result<Vec<u8>, Refusal>
    ensures shown { OnOk result (IsShown bytes.now) }
{
    let ring = read_ring(alloc, bytes)?;
    let Racking { racks, .. } = racks_at_rest(alloc, &ring, options)?;
    let facts = facts_of(alloc, &ring, racks, options)?;
    ring_summary(alloc, &ring, &facts)
}

fn show_plain(
    alloc: Global,
    bytes: &[u8],
    wish: Wish,
    options: &Options,
    words: &mut Words,
) -> Result<Vec<u8>, Refusal>
    ensures shown { OnOk result (IsShown bytes.now) }
{
    if front(bytes, 1) == bytes.len() {
        return show_ring(alloc, bytes, options);
    }
    show_plan(alloc, bytes, wish, options, words)
}

/// Summarizes an accepted plan with progress and sizes, or a ring without a plan.
///
/// Adds to `words` by which racks a change was planned.
///
/// Fails as `studied`, the ring's reader, `facts_of` and `racks_of`.
pub fn show_bundle(
    alloc: Global,
    bytes: &[u8],
    wish: Wish,
    options: &Options,
    words: &mut Words,
) -> Result<Vec<u8>, Refusal>
    ensures shown { OnOk result (IsShown bytes.now) }
{
    let text = show_plain(alloc, bytes, wish, options, words)?;
    painted(alloc, text, wish.color)
}

fn sized(volumes: Option<&Volumes>, rate: Option<u32>) -> Option<Sized<'_>> {
    match volumes {
        Some(volumes) => Some(Sized { volumes, rate }),
        None => None,
    }
}

fn aliases_shown(
    alloc: Global,
    found: &Study,
    options: &Options,
) -> Result<Option<Labels>, Refusal> {
    match aliases_of(alloc, found.approved.ring(), &options.layout)? {
        Some(aliases) => Ok(Some(short_labels(alloc, &aliases)?)),
        None => Ok(None),
    }
}

fn racks_shown(
    alloc: Global,
    bytes: &[u8],
    found: &Study,
    options: &Options,
    words: &mut Words,
) -> Result<Option<Labels>, Refusal> {
    ask_layout(found.approved.ring(), &options.layout)?;
    let racking = racking_of(alloc, &found.approved, options)?;
    if kind_of(bytes) == Kind::Change {
        racking.push(words);
    }
    Ok(racking.racks)
}

fn show_plan(
    alloc: Global,
    bytes: &[u8],
    wish: Wish,
    options: &Options,
    words: &mut Words,
) -> Result<Vec<u8>, Refusal>
    ensures shown { OnOk result (IsShown bytes.now) }
{
    let found = studied(alloc, bytes, options)?;
    let racks = racks_shown(alloc, bytes, &found, options, words)?;
    let aliases = aliases_shown(alloc, &found, options)?;
    let Shown {
        scene,
        progress,
        present,
    } = shown_by(alloc, &found, options)?;
    let volumes = volumes_of(alloc, &found, &scene, progress.as_ref(), options)?;
    let sized = sized(volumes.as_ref(), wish.rate);
    let (ring, plan) = (found.approved.ring(), found.approved.plan());
    let (progress, racks) = (progress.as_ref(), racks.as_ref());
    let shape = shape_of(wish.shape);
    let view = Overview {
        alloc,
        ring,
        names: NodeNames::new(ring, aliases.as_ref()),
        plan,
        scene: &scene,
        present: &present,
        progress,
        shape,
        sized,
        racks,
    };
    summary(&view)
}

/// Draws a plan, or its slots' map, as SVG. Refusals and words are those of `show_bundle`.
pub fn draw_bundle(
    alloc: Global,
    bytes: &[u8],
    kind: Picture,
    options: &Options,
    words: &mut Words,
) -> Result<Vec<u8>, Refusal>
    ensures approved { OnOk result (HasApproved bytes.now) }
{
    let found = studied(alloc, bytes, options)?;
    let racks = racks_shown(alloc, bytes, &found, options, words)?;
    let aliases = aliases_shown(alloc, &found, options)?;
    let Shown {
        scene,
        progress,
        present,
    } = shown_by(alloc, &found, options)?;
    let moved = volumes_of(alloc, &found, &scene, progress.as_ref(), options)?;
    let (progress, volumes) = (progress.as_ref(), moved.as_ref());
    let ring = found.approved.ring();
    let sheet = Sheet {
        alloc,
        ring,
        names: NodeNames::new(ring, aliases.as_ref()),
        plan: found.approved.plan(),
        scene: &scene,
        present: &present,
        progress,
        volumes,
    };
    drawn(&sheet, kind, racks.as_ref())
}

fn drawn(sheet: &Sheet, kind: Picture, racks: Option<&Labels>) -> Result<Vec<u8>, Refusal> {
    match kind {
        Picture::Rounds => picture(sheet),
        Picture::Map => map_picture(sheet, racks),
    }
}
