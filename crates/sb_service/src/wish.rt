ghost use Rattle.std.specs.Prelude.{◌≡◌, ℕ, List, true, None, IfOk, IfSome, IfNone};
ghost use Rattle.std.specs.List.{Any};
ghost use Rattle.sb_model.specs.Names.{same_name};
ghost use Rattle.sb_model.specs.Target.{is_within};
ghost use Rattle.sb_model.specs.History.{declares, History as Versions};
ghost use Rattle.answering_lists.specs.Lists.{answering};
ghost use Rattle.list_versions.specs.Limits.{WithinLimits};
ghost use Rattle.update_messages.specs.Answer.{version_named};
ghost use Rattle.update_messages.specs.Messages.{Request};
ghost use Rattle.delta_server.specs.Tokens.{server_naming};
ghost use Rattle.named_answers.specs.Answers.{asked_of_list, named_fetch_answer};
ghost use Rattle.sb_service.specs.declared.wish.Wish.{Wish as ItemWish};
ghost use Rattle.sb_service.specs.Kept.{are_whole, same_wishes};
ghost use Rattle.sb_service.specs.Wish.{answered_items, newest_size, is_free, is_whole, same_version, same_wish, wish_of, wish_of_list, wished_answer, AreWishesOf};

use crate::kept::Wishes;
use answering_lists::answering_list;
use delta_server::held_version;
use list_versions::History;
use sb_model::{ListName, OutOfMemory, Row};
use std::alloc::Global;
use update_messages::ListRequest;

/// The most prefixes that any version of a list has.
const MOST_PREFIXES: u64 = 1_048_576;

/// What an item of a request for updates comes to, if its limits surely do not bind.
#[derive(Clone, Copy, Debug)]
pub(crate) struct Wish {
    /// The name for which it asks.
    pub name: ListName,
    /// The list that answers for that name.
    pub list: ListName,
    /// The version of that list that its state names, or none.
    pub held: Option<u64>,
    /// Whether it takes Rice coded sets.
    pub rice: bool,
}

/// Whether two names are the same.
fn is_same_list(first: ListName, second: ListName) -> bool
    ensures { result ≡ same_name first second }
{
    first == second
}

/// Whether two states name one version, or both name none.
fn is_same_version(first: Option<u64>, second: Option<u64>) -> bool
    ensures { result ≡ same_version first second }
{
    match (first, second) {
        (Some(first), Some(second)) => first == second,
        (None, None) => true,
        _ => false,
    }
}

/// Whether two items wish the same.
fn is_same(first: Wish, second: Wish) -> bool
    ensures { result ≡ same_wish first second }
{
    is_same_list(first.name, second.name)
        && is_same_list(first.list, second.list)
        && is_same_version(first.held, second.held)
        && first.rice == second.rice
}

/// Whether the items of two requests wish the same, in order.
pub(crate) fn are_same(first: &[Wish], second: &[Wish]) -> bool
    ensures { result ≡ same_wishes first.now second.now }
{
    match (first, second) {
        ([], []) => true,
        ([wish, wishes @ ..], [other, others @ ..]) => {
            is_same(*wish, *other) && are_same(wishes, others)
        }
        _ => false,
    }
}

/// Whether each item wishes a whole list.
pub(crate) fn are_whole(wishes: &[Wish]) -> bool
    ensures { result ≡ are_whole wishes.now }
{
    wishes.iter().all(|wish| wish.held.is_none())
}

/// Whether a count is within a limit, of which 0 means none.
fn is_within(limit: u32, count: u64) -> bool
    ensures { result ≡ is_within limit count }
{
    limit == 0 || count <= u64::from(limit)
}

/// The version of a list that the state of an item names.
fn held_by(history: &History, asked: &ListRequest, list: ListName) -> Option<u64>
    ensures { result ≡ version_named history.now.versions (server_naming history.now.versions) list asked.now.state }
{
    let state = asked.state.as_slice();
    held_version(history.epoch(), history.len(), list, state)
}

/// How many prefixes the newest set of a declared list has.
fn newest_size(history: &History, list: ListName) -> u32
    requires { declares history.now.versions list ≡ true }
    ensures { result ≡ newest_size history.now.versions list }
{
    match history.newest(list) {
        Some(newest) => newest.set.len(),
        None => unreachable!(),
    }
}

/// Whether the limits of an item surely do not bind, of one who holds a version of a declared list or none.
fn is_free(history: &History, asked: &ListRequest, list: ListName, held: Option<u64>) -> bool
    requires { declares history.now.versions list ≡ true }
    ensures { result ≡ is_free history.now.versions (asked_of_list list asked.now) held }
{
    let newest = u64::from(newest_size(history, list));
    match held {
        None => is_within(asked.max_update, newest) && is_within(asked.max_database, newest),
        Some(held) => {
            history.len() == held
                || (is_within(asked.max_update, newest + MOST_PREFIXES)
                    && is_within(asked.max_database, newest))
        }
    }
}

/// What an item wishes of a declared list that answers for it. `None` exactly if a limit may bind.
fn wish_of_list(history: &History, asked: &ListRequest, list: ListName) -> Option<Wish>
    requires { declares history.now.versions list ≡ true }
    ensures { result ≡ wish_of_list history.now.versions asked.now list }
{
    let held = held_by(history, asked, list);
    if !is_free(history, asked, list, held) {
        return None;
    }
    Some(Wish {
        name: asked.name,
        list,
        held,
        rice: asked.rice,
    })
}

/// What those items of a request wish for which a list answers, in order. `None` exactly if one of them has no wish.
pub(crate) fn wishes_of(
    alloc: Global,
    history: &History,
    items: &[ListRequest],
) -> Result<Option<Wishes>, OutOfMemory>
    ensures wishes { IfOk result (λ found. IfSome found (AreWishesOf history.now.versions items.now)) }
    ensures none { IfOk result (λ found. IfNone found (Any (λ asked. wish_of history.now.versions asked ≡ None)
        (answered_items history.now.versions items.now))) }
{
    let mut wishes = Row::with_capacity(alloc, items.len())?;
    for asked in items {
        let Some(list) = answering_list(history, asked.name) else {
            continue;
        };
        match wish_of_list(history, asked, list) {
            Some(wish) => wishes.push(wish)?,
            None => return Ok(None),
        }
    }
    Ok(Some(Wishes(wishes)))
}

/// Two requests to one history whose answered items wish the same have one answer, and it is the answer to what they wish.
pub fn wishes_have_one_answer()
    ensures answered { (history : Versions) (wait : ℕ) (request : Request) (wishes : List ItemWish) → WithinLimits history → AreWishesOf history request.items wishes
        → named_fetch_answer history (server_naming history) wait request ≡ wished_answer history wait wishes }
    ensures one { (history : Versions) (wait : ℕ) (first second : Request) (wishes : List ItemWish) → WithinLimits history
        → AreWishesOf history first.items wishes → AreWishesOf history second.items wishes
        → named_fetch_answer history (server_naming history) wait first ≡ named_fetch_answer history (server_naming history) wait second }
{}
