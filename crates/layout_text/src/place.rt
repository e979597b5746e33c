ghost use Rattle.std.specs.Prelude.{◌≡◌, ◌<◌, ◌≤◌, ◌-◌, ◌^◌, IfOk};
ghost use Rattle.std.specs.List.{list_all};
ghost use Rattle.layout_text.specs.Viable.{opened, room, lacking, wanted, spare, can_go_on, is_stripe, is_object, wanted_objects, is_shaped, follows, is_number, fits, moved, begin, is_good, going, next, complete, IsSmall};
ghost use Rattle.composite_layout.specs.Layouts.{least, most, is_end};

use crate::line::{Head, Line};
use crate::seen::{Seen, counter};
use composite_layout::{Component, State};
use flr_base::{EOF, ObjectId, Stripe};

/// Where the reader stands: in the mirror begun last, before a byte of the file.
#[derive(Clone, Copy, Debug, PartialEq, Eq)]
pub(crate) struct Place {
    pub head: Head,
    /// 0 where none has begun.
    pub mirror: u16,
    /// EOF where the mirror has ended, or none has begun.
    pub at: u64,
    /// How many mirrors have begun.
    pub begun: u32,
    /// The mirror has components, and none of them is stale.
    pub fresh: bool,
    /// A mirror before it is wholly fresh.
    pub kept: bool,
    /// How many components are still to come.
    pub left: u32,
}

/// How far the reader is.
#[derive(Clone, Copy, Debug, PartialEq, Eq)]
pub(crate) enum Phase {
    Start,
    Going(Place),
}

/// The line goes on no valid layout's text.
#[derive(Clone, Copy, Debug, PartialEq, Eq)]
pub(crate) struct Unfit;

fn least(state: State) -> u32
    ensures { result ≡ least state }
{
    match state {
        State::Single | State::SyncPending => 1,
        State::ReadOnly | State::WritePending => 2,
    }
}

fn most(state: State) -> u32
    ensures { result ≡ most state }
{
    match state {
        State::Single => 1,
        State::ReadOnly | State::WritePending | State::SyncPending => 65535,
    }
}

/// 1 where the mirror still has to reach EOF.
fn opened(place: Place) -> u32
    ensures { result ≡ opened place }
{
    if place.at == EOF { 0 } else { 1 }
}

/// With at most how many components it does.
fn room(place: Place) -> u64
    ensures { result ≡ room place }
{
    if place.at == EOF {
        0
    } else {
        (EOF - place.at) / 65536 + 1
    }
}

/// How many wholly fresh mirrors are missing.
fn lacking(place: Place) -> u32
    ensures { result ≡ lacking place }
{
    if place.kept || place.fresh { 0 } else { 1 }
}

/// How many further mirrors there must be.
fn wanted(place: Place) -> u32
    ensures { result ≡ wanted place }
{
    least(place.head.state)
        .saturating_sub(place.begun)
        .max(lacking(place))
}

/// How many further mirrors there may be.
fn spare(place: Place) -> u32
    ensures { result ≡ spare place }
{
    let ids = place
        .head
        .next_mirror
        .saturating_sub(1)
        .saturating_sub(u32::from(place.mirror));
    most(place.head.state).saturating_sub(place.begun).min(ids)
}

/// Whether some components complete a valid layout from here.
#[tactic(auto, unfolding(crate::specs::Viable::can_go_on))]
fn can_go_on(place: Place) -> bool
    ensures { result ≡ can_go_on place }
{
    let wanted = wanted(place);
    let spare = spare(place);
    wanted <= spare
        && opened(place) + wanted <= place.left
        && (u64::from(place.left) <= room(place) || 1 <= spare)
}

fn is_end(end: u64) -> bool
    ensures { result ≡ is_end end }
{
    end == EOF || end % 65536 == 0
}

fn is_stripe(stripe: Stripe) -> bool
    ensures { result ≡ is_stripe stripe }
{
    stripe.size % 65536 == 0
        && 65536 <= stripe.size
        && stripe.size <= 1 << 30
        && 0 < stripe.count
        && stripe.count <= 64
}

fn is_object(object: ObjectId) -> bool
    ensures { result ≡ is_object object }
{
    object.target < 64 && 0 < object.number
}

fn are_objects(objects: &[ObjectId]) -> bool
    ensures { result ≡ list_all is_object objects.now }
{
    for object in objects {
        if !is_object(*object) {
            return false;
        }
    }
    true
}

/// How many objects there have to be.
fn wanted_objects(component: &Component) -> u32
    ensures { result ≡ wanted_objects component.now }
{
    if component.flags.init {
        component.stripe.count
    } else {
        0
    }
}

/// Whether the component has its id, its stripes and its objects.
#[tactic(auto, unfolding(crate::specs::Viable::is_shaped))]
fn is_shaped(component: &Component) -> bool
    ensures { result ≡ is_shaped component.now }
{
    component.id == u32::from(component.mirror) * 65536 + counter(component)
        && is_stripe(component.stripe)
        && component.objects.len() == wanted_objects(component) as usize
        && are_objects(component.objects.as_slice())
}

/// Whether the component stands next to what came.
fn follows(place: Place, component: &Component) -> bool
    ensures { result ≡ follows place component.now }
{
    if place.at == EOF {
        place.begun < most(place.head.state)
            && place.mirror < component.mirror
            && u32::from(component.mirror) < place.head.next_mirror
            && component.extent.start == 0
    } else {
        component.mirror == place.mirror && component.extent.start == place.at
    }
}

/// Whether its number is below the next one, and not used yet.
fn is_number(place: Place, seen: &Seen, component: &Component) -> bool
    ensures { result ≡ is_number place seen.now component.now }
{
    let number = counter(component);
    0 < number && number < place.head.next_counter && !seen.is_used(number)
}

#[tactic(auto, unfolding(crate::specs::Viable::fits))]
fn fits(place: Place, seen: &Seen, component: &Component) -> bool
    ensures { result ≡ fits place seen.now component.now }
{
    0 < place.left
        && is_number(place, seen, component)
        && is_end(component.extent.end)
        && component.extent.start < component.extent.end
        && follows(place, component)
        && is_shaped(component)
}

/// Where the reader stands after the component, which fits.
#[tactic(auto, unfolding(crate::specs::Viable::moved))]
fn moved(place: Place, component: &Component) -> Place
    requires few { place.begun < 2 ^ 32 - 1 }
    requires left { 0 < place.left }
    ensures { result ≡ moved place component.now }
{
    if place.at == EOF {
        Place {
            mirror: component.mirror,
            at: component.extent.end,
            begun: place.begun + 1,
            fresh: !component.flags.stale,
            kept: place.kept || place.fresh,
            left: place.left - 1,
            ..place
        }
    } else {
        Place {
            at: component.extent.end,
            fresh: place.fresh && !component.flags.stale,
            left: place.left - 1,
            ..place
        }
    }
}

/// Where the reader stands after the head line.
fn begin(head: Head) -> Place
    ensures { result ≡ begin head }
{
    Place {
        head,
        mirror: 0,
        at: EOF,
        begun: 0,
        fresh: false,
        kept: false,
        left: head.count,
    }
}

#[tactic(auto, unfolding(crate::specs::Viable::is_good))]
fn is_good(head: Head) -> bool
    ensures { result ≡ is_good head }
{
    0 < head.generation
        && head.next_mirror <= head.next_counter
        && head.next_counter <= 65536
        && head.count < head.next_counter
}

fn going(place: Place) -> Result<Phase, Unfit>
    requires { place.begun ≤ most place.head.state }
    ensures exact { result ≡ going place }
    ensures small { IfOk result IsSmall }
{
    if can_go_on(place) {
        Ok(Phase::Going(place))
    } else {
        Err(Unfit)
    }
}

/// Where the reader stands after one line more.
pub(crate) fn next(phase: Phase, seen: &Seen, line: &Line) -> Result<Phase, Unfit>
    requires { IsSmall phase }
    ensures exact { result ≡ next phase seen.now line.now }
    ensures small { IfOk result IsSmall }
{
    match (phase, line) {
        (Phase::Start, Line::Head(head)) if is_good(*head) => going(begin(*head)),
        (Phase::Going(place), Line::Component(component)) if fits(place, seen, component) => {
            going(moved(place, component))
        }
        _ => Err(Unfit),
    }
}

/// The head of the layout, where all its components have come.
pub(crate) fn complete(phase: Phase) -> Option<Head>
    ensures { result ≡ complete phase }
{
    match phase {
        Phase::Going(place) if place.left == 0 => Some(place.head),
        _ => None,
    }
}
