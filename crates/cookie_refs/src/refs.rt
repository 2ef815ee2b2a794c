//! How many references each cookie has, in one list by rising serial. A cookie that ended stays in it, with none,
//! until there is no place for a new one. So a cookie's index changes only when those that ended are taken out.

ghost use Rattle.std.specs.Prelude.{◌≡◌, ◌≢◌, ℕ, ◌+◌, ◌^◌, ◌<◌, ◌↔◌, ◌==◌, if◌then◌else◌, IsErr, IfOk, IfErr, OnOk, OnErr, IfSome, IfNone, ◌≤◌, length, IsTrue};
ghost use Rattle.cs_types.specs.Prctl.{live_cookies};
ghost use Rattle.cookie_refs.specs.Refs.{count_of, live_count, references, Agree};
ghost use Rattle.cookie_refs.specs.Inside.{IsRising, AreCookies, IsAt, count_in, live_of};

use crate::places::Places;
use bounded_list::BoundedList;
use cs_types::{Cookie, OutOfMemory};
use std::alloc::Global;
use std::marker::Model;
use thiserror::Error;

/// No cookie was made, since as many are live as may be: `limit`, 0 to 65535.
#[derive(Debug, Drop, Error)]
#[error("{limit} cookies are live, and no more may be")]
pub struct CookieFull {
    pub limit: u16,
}

/// A cookie that was made and how many references it has: 1 or more while it is live, and 0 since it ended.
#[derive(Clone, Copy)]
struct CookieCount {
    cookie: Cookie,
    count: u32,
}

/// The live cookies with their counts, of the tasks that have them and of the calls that hold one
/// for a while (`struct sched_core_cookie`). The serials begin at 1, rise, and are never used
/// again.
#[derive(Drop)]
pub struct CookieRefs {
    cookies: BoundedList<CookieCount>,
    places: Places,
    next: Cookie,
    live: u16,
    limit: u16,
}

impl Model for CookieRefs {
    ghost use Rattle.cookie_refs.specs.Refs.{Refs, refs_code};

    ghost Value = { Refs };

    ghost coded = { refs_code };

    ghost use Rattle.cookie_refs.specs.Inside.{refs_of, IsSound};

    ghost view = { refs_of };

    ghost invariant = { IsSound };
}

impl CookieRefs {
    /// No live cookie yet, and 1 the next serial. It takes memory for twice as many cookies as `limit`,
    /// 0 to 65535, since those that ended stay for a while. No later call takes any.
    pub fn with_limit(alloc: Global, limit: u16) -> Result<CookieRefs, OutOfMemory>
        ensures counts { IfOk result (λ refs. (cookie : ℕ) → count_of refs cookie ≡ 0) }
        ensures live { IfOk result (λ refs. live_count refs ≡ 0) }
        ensures next { IfOk result (λ refs. refs.next ≡ 1) }
        ensures limit { IfOk result (λ refs. refs.limit ≡ limit) }
    {
        let cookies = BoundedList::with_room(alloc, 2 * usize::from(limit))?;
        Ok(CookieRefs {
            cookies,
            places: Places::none(),
            next: 1,
            live: 0,
            limit,
        })
    }

    /// A new cookie with one reference, the caller's, under the next serial
    /// (`sched_core_alloc_cookie`; the serial and the limit are this project's). It is refused exactly
    /// if as many are live as may be.
    pub fn make(&mut self) -> Result<Cookie, CookieFull>
        requires { self.old.next < 2 ^ 63 }
        ensures full { IsErr result ↔ (live_count self.old ≡ self.old.limit) }
        ensures error { IfErr result (λ full. full.limit ≡ self.old.limit) }
        ensures refused { OnErr result (self.new ≡ self.old) }

        ensures cookie { IfOk result (λ cookie. cookie ≡ self.old.next) }
        ensures counts { IfOk result (λ made. (cookie : ℕ) →
            count_of self.new cookie ≡ (if cookie == made then 1 else count_of self.old cookie)) }
        ensures live { OnOk result (live_count self.new ≡ live_count self.old + 1) }
        ensures next { OnOk result (self.new.next ≡ self.old.next + 1) }
        ensures limit { self.new.limit ≡ self.old.limit }

        // The next serial is a cookie, and was none before. If the counts are those of a list of
        // tasks, the live cookies are those that its tasks have.
        ensures above_0 { 0 < self.old.next }
        ensures unused { count_of self.old self.old.next ≡ 0 }
        ensures tasks { (tasks : _) → Agree self.old tasks →
            live_count self.old ≡ length (live_cookies tasks) }
    {
        if self.live == self.limit {
            return Err(CookieFull { limit: self.limit });
        }
        take_out_ended(&mut self.cookies, &mut self.places);
        let cookie = self.next;
        self.places.note(cookie, self.cookies.len());
        self.cookies.push(CookieCount { cookie, count: 1 });
        self.next += 1;
        self.live += 1;
        Ok(cookie)
    }

    /// One more reference to a cookie (`sched_core_get_cookie`). Nothing changes for 0, which is no
    /// cookie.
    pub fn get(&mut self, cookie: Cookie)
        requires live { cookie ≢ 0 → 0 < count_of self.old cookie }
        requires few { count_of self.old cookie < 2 ^ 31 }
        ensures counts { (other : ℕ) →
            count_of self.new other ≡ count_of self.old other + references cookie other }
        ensures live { live_count self.new ≡ live_count self.old }
        ensures next { self.new.next ≡ self.old.next }
        ensures limit { self.new.limit ≡ self.old.limit }
    {
        if let Some(index) = find(&self.cookies, &mut self.places, cookie) {
            self.cookies[index].count += 1;
        }
    }

    /// One reference to a cookie less (`sched_core_put_cookie`). At the last the cookie is no longer
    /// live. Nothing changes for 0.
    pub fn put(&mut self, cookie: Cookie)
        requires { cookie ≢ 0 → 0 < count_of self.old cookie }
        ensures counts { (other : ℕ) →
            count_of self.new other + references cookie other ≡ count_of self.old other }
        ensures live { live_count self.new + (if count_of self.old cookie == 1 then 1 else 0)
            ≡ live_count self.old }
        ensures next { self.new.next ≡ self.old.next }
        ensures limit { self.new.limit ≡ self.old.limit }
    {
        if let Some(index) = find(&self.cookies, &mut self.places, cookie) {
            let counted = &mut self.cookies[index];
            counted.count -= 1;
            if counted.count == 0 {
                self.live -= 1;
            }
        }
    }

    /// One reference to the one cookie less, and one more to the other (`sched_core_update_cookie`). Nothing changes if
    /// they are the same.
    #[inline(always)]
    pub fn exchange(&mut self, from: Cookie, to: Cookie)
        requires live { to ≢ 0 → 0 < count_of self.old to }
        requires few { count_of self.old to < 2 ^ 31 }
        requires own { from ≢ 0 → 0 < count_of self.old from }
        ensures counts { (other : ℕ) →
            count_of self.new other + references from other
            ≡ count_of self.old other + references to other }
        ensures next { self.new.next ≡ self.old.next }
        ensures limit { self.new.limit ≡ self.old.limit }
    {
        if from == to {
            return;
        }
        self.get(to);
        self.put(from);
    }

    /// How many references a cookie has: 0 if it is not live, and for 0.
    pub fn count(&self, cookie: Cookie) -> u32
        ensures count { result ≡ count_of self.now cookie }
        ensures none { cookie ≡ 0 → result ≡ 0 }
    {
        match index_of(&self.cookies, cookie) {
            Some(index) => self.cookies[index].count,
            None => 0,
        }
    }

    /// How many cookies are live, 0 to the limit.
    pub fn live(&self) -> u16
        ensures count { result ≡ live_count self.now }
        ensures limit { result ≤ self.now.limit }

        // If the counts are those of a list of tasks, these are the cookies that its tasks have.
        ensures tasks { (tasks : _) → Agree self.now tasks → result ≡ length (live_cookies tasks) }
    {
        self.live
    }
}

/// Takes out the cookies that ended, if there is no place for one more. The indices of the others are noted anew then.
fn take_out_ended(cookies: &mut BoundedList<CookieCount>, places: &mut Places)
    ensures items { cookies.new.items ≡
        (if length cookies.old.items == cookies.old.room
        then live_of cookies.old.items else cookies.old.items) }
    ensures room { cookies.new.room ≡ cookies.old.room }
    ensures fits { length cookies.new.items ≤ cookies.new.room }
{
    if cookies.is_full() {
        cookies.retain(|one| one.count != 0);
        note_all(cookies, places);
    }
}

/// Notes the index of each cookie.
#[inline(never)]
fn note_all(cookies: &[CookieCount], places: &mut Places) {
    for (index, one) in cookies.iter().enumerate() {
        places.note(one.cookie, index);
    }
}

/// The index of a cookie, live or ended. It halves what is left with each comparison. It is seldom called, since most
/// indices are noted.
#[cold]
#[inline(never)]
fn index_of(cookies: &[CookieCount], cookie: Cookie) -> Option<usize>
    requires { IsRising cookies.now }
    ensures found { IfSome result (IsAt cookies.now cookie) }
    ensures none { IfNone result (count_in cookies.now cookie ≡ 0) }
{
    cookies.binary_search_by_key(&cookie, |one| one.cookie).ok()
}

/// Whether the cookie at the index is this one.
fn is_at(cookies: &[CookieCount], index: usize, cookie: Cookie) -> bool
    requires { IsRising cookies.now }
    ensures { IsTrue result → IsAt cookies.now cookie index }
{
    match cookies.get(index) {
        Some(one) => one.cookie == cookie,
        None => false,
    }
}

/// The index of a cookie, live or ended. It is noted, so that the next search for it is one look. For 0 there is none.
fn find(cookies: &[CookieCount], places: &mut Places, cookie: Cookie) -> Option<usize>
    requires rising { IsRising cookies.now }
    requires above_0 { AreCookies cookies.now }
    ensures found { IfSome result (IsAt cookies.now cookie) }
    ensures none { IfNone result (count_in cookies.now cookie ≡ 0) }
{
    if cookie == 0 {
        return None;
    }
    let noted = places.of(cookie);
    if is_at(cookies, noted, cookie) {
        return Some(noted);
    }
    let index = index_of(cookies, cookie)?;
    places.note(cookie, index);
    Some(index)
}
