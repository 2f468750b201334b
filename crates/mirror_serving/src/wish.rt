ghost use Rattle.std.specs.Prelude.{◌≡◌, ℕ, IfOk};
ghost use Rattle.sb_model.specs.Names.{same_name};
ghost use Rattle.update_messages.specs.Messages.{Request};
ghost use Rattle.mirror_places.specs.Answer.{mirror_answer};
ghost use Rattle.mirror_places.specs.Places.{Places};
ghost use Rattle.mirror_serving.specs.PlaceWish.{place_wish_answer, place_wish_of, place_wishes_of, same_place_wish, same_place_wishes, wish_whole_lists};
ghost use Rattle.mirror_serving.specs.Response.{mirror_text};

use mirror_places::{Mirror, place_named};
use sb_model::{ListName, OutOfMemory, Row};
use std::alloc::Global;
use update_messages::ListRequest;

/// What an item of a fetch request comes to, if its list is served.
#[derive(Clone, Copy, Debug)]
pub struct PlaceWish {
    pub list: ListName,
    /// The kept place that its state names, or none.
    pub place: Option<u64>,
    /// Whether it takes Rice coded sets.
    pub rice: bool,
}

/// Whether two names are the same.
fn is_same_list(first: ListName, second: ListName) -> bool
    ensures { result ≡ same_name first second }
{
    first == second
}

/// Whether two items wish the same.
fn is_same(first: PlaceWish, second: PlaceWish) -> bool
    ensures { result ≡ same_place_wish first second }
{
    is_same_list(first.list, second.list)
        && first.place == second.place
        && first.rice == second.rice
}

/// Whether the items of two requests wish the same, in order.
pub(crate) fn are_same(first: &[PlaceWish], second: &[PlaceWish]) -> bool
    ensures { result ≡ same_place_wishes first.now second.now }
{
    match (first, second) {
        ([], []) => true,
        ([wish, wishes @ ..], [other, others @ ..]) => {
            is_same(*wish, *other) && are_same(wishes, others)
        }
        _ => false,
    }
}

/// Whether each item wishes a whole list.
pub(crate) fn are_whole(wishes: &[PlaceWish]) -> bool
    ensures { result ≡ wish_whole_lists wishes.now }
{
    wishes.iter().all(|wish| wish.place.is_none())
}

/// What an item wishes.
fn wish_of(mirror: &Mirror, asked: &ListRequest) -> PlaceWish
    ensures { result ≡ place_wish_of mirror.now asked.now }
{
    PlaceWish {
        list: asked.name,
        place: place_named(mirror, asked),
        rice: asked.rice,
    }
}

/// What those items of a request wish whose lists are served, in order.
pub(crate) fn wishes_of(
    alloc: Global,
    mirror: &Mirror,
    items: &[ListRequest],
) -> Result<Row<PlaceWish>, OutOfMemory>
    ensures { IfOk result (λ wishes. wishes ≡ place_wishes_of mirror.now items.now) }
{
    let mut wishes = Row::with_capacity(alloc, items.len())?;
    for asked in items {
        if mirror.serves(asked.name) {
            wishes.push(wish_of(mirror, asked))?;
        }
    }
    Ok(wishes)
}

/// The answer to a fetch request is that to what its items wish whose lists are served. So two requests to one mirror that wish the same
/// have one answer, byte for byte.
pub fn place_wishes_have_one_answer()
    ensures answered { (mirror : Places) (wait : ℕ) (request : Request)
        → mirror_answer mirror wait request ≡ place_wish_answer mirror wait (place_wishes_of mirror request.items) }
    ensures one { (mirror : Places) (wait : ℕ) (first second : Request)
        → place_wishes_of mirror first.items ≡ place_wishes_of mirror second.items
        → mirror_text mirror wait first ≡ mirror_text mirror wait second }
{}
