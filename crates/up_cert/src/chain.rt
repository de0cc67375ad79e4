//! What the worlds of a chain's links show.

ghost use Rattle.std.specs.Prelude.{◌≡◌, ◌↔◌, ◌<◌, ◌^◌, length, IsTrue, IfOk};
ghost use Rattle.std.specs.List.{All};
ghost use Rattle.fo_core.specs.RunLaws.{IsLoneState, IsLoneInitial};
ghost use Rattle.fo_core.specs.Sorted.{IsSig};
ghost use Rattle.fo_core.specs.Tables.{IsReadable};
ghost use Rattle.up_claims.specs.declared.verdict.Verdict.TheVariants.{NoUniversal};
ghost use Rattle.up_cert.specs.Asked.{HasLinkWorlds, CanLook};
ghost use Rattle.up_cert.specs.Trying.{Looks};
ghost use Rattle.up_cert.specs.VerdictSpots.{ChainPasses, HasState, ComesFrom, Embeds, EndsBadly};
ghost use Rattle.up_cert.specs.VerdictSpots.{last_copy as last_copy_of, origin_what as origin_what_of};
ghost use Rattle.up_cert.specs.VerdictSpots.{link_spots, links_below, link_at};

use crate::spot::{Spot, What};
use fo_core::{System, World};
use fo_embed::is_embedding;
use fo_eval::{Env, is_initial, is_state, is_step, violates};
use std::alloc::{AllocError, Global};
use up_claims::Link;

/// The link of this number.
fn link_of(links: &[Link], k: usize) -> &Link
    requires { k < length links.now }
    ensures { result.now ≡ link_at links.now k }
{
    &links[k]
}

/// The number of the last copy.
fn last_copy(w: &World) -> u32
    requires { length w.now.copies < 2 ^ 32 }
    ensures { result ≡ last_copy_of w.now }
{
    (w.copies.len() as u32).saturating_sub(1)
}

/// Whether the world is one state.
fn is_lone_state(sys: &System, w: &World, env: &mut Env) -> bool
    requires look { CanLook sys.now env.old }
    requires world { IsReadable sys.now.sig w.now }
    ensures shown { IsTrue result ↔ IsLoneState sys.now w.now }
    ensures same { env.new ≡ env.old }
{
    if w.copies.len() != 1 {
        return false;
    }
    is_state(sys, w, 0, env)
}

/// Whether the link's state is one, and the last copy of its origin.
fn has_state(sys: &System, link: &Link, env: &mut Env) -> bool
    requires look { CanLook sys.now env.old }
    requires worlds { HasLinkWorlds sys.now.sig link.now }
    ensures shown { IsTrue result ↔ HasState sys.now link.now }
    ensures same { env.new ≡ env.old }
{
    if !is_lone_state(sys, &link.state, env) {
        return false;
    }
    is_state(sys, &link.origin, last_copy(&link.origin), env)
}

/// Whether the world is one initial state.
fn is_start(sys: &System, w: &World, env: &mut Env) -> bool
    requires look { CanLook sys.now env.old }
    requires world { IsReadable sys.now.sig w.now }
    ensures shown { IsTrue result ↔ IsLoneInitial sys.now w.now }
    ensures same { env.new ≡ env.old }
{
    if w.copies.len() != 1 {
        return false;
    }
    is_initial(sys, w, 0, env)
}

/// Whether the link's origin is a step from this state.
fn comes_from(
    alloc: Global,
    sys: &System,
    before: &World,
    link: &Link,
    env: &mut Env,
) -> Result<bool, AllocError>
    requires look { CanLook sys.now env.old }
    requires worlds { HasLinkWorlds sys.now.sig link.now }
    ensures shown { IfOk result (λ b. IsTrue b ↔ ComesFrom sys.now before.now link.now) }
    ensures same { env.new ≡ env.old }
{
    if link.origin.copies.len() != 2 {
        return Ok(false);
    }
    if is_step(sys, &link.origin, 0, env).is_none() {
        return Ok(false);
    }
    Ok(link.origin.alone(alloc, 0)?.same(before))
}

/// Whether the link's map embeds its state in the last copy of its origin.
fn embeds(sys: &System, link: &Link) -> bool
    requires sig { IsSig sys.now.sig }
    requires worlds { HasLinkWorlds sys.now.sig link.now }
    ensures { IsTrue result ↔ Embeds sys.now link.now }
{
    let last = last_copy(&link.origin);
    is_embedding(&sys.sig, &link.state, 0, &link.origin, last, &link.map)
}

/// Whether the origin of the link of this number comes about as it should.
fn has_origin(
    alloc: Global,
    sys: &System,
    links: &[Link],
    k: u32,
    env: &mut Env,
) -> Result<bool, AllocError>
    requires look { CanLook sys.now env.old }
    requires worlds { All (HasLinkWorlds sys.now.sig) links.now }
    requires within { k < length links.now }
    ensures shown { IfOk result (λ b. IsTrue b ↔
        ChainPasses sys.now links.now (origin_what_of k) k) }
    ensures same { env.new ≡ env.old }
{
    let at = k as usize;
    let link = link_of(links, at);
    if at == 0 {
        return Ok(is_start(sys, &link.origin, env));
    }
    let before = link_of(links, at - 1);
    comes_from(alloc, sys, &before.state, link, env)
}

/// How the origin of the link of this number should come about.
fn origin_what(k: u32) -> What
    ensures { result ≡ origin_what_of k }
{
    if k == 0 { What::Start } else { What::Step }
}

/// Looks at the link of this number: the first of its spots that fails.
fn wrong_link(
    alloc: Global,
    sys: &System,
    links: &[Link],
    k: u32,
    env: &mut Env,
) -> Result<Option<Spot>, AllocError>
    requires look { CanLook sys.now env.old }
    requires worlds { All (HasLinkWorlds sys.now.sig) links.now }
    requires within { k < length links.now }
    ensures looks { IfOk result (Looks sys.now (NoUniversal links.now) (link_spots k)) }
    ensures same { env.new ≡ env.old }
{
    let link = link_of(links, k as usize);
    if !has_state(sys, link, env) {
        return Ok(Some(Spot {
            what: What::State,
            number: k,
        }));
    }
    if !has_origin(alloc, sys, links, k, env)? {
        return Ok(Some(Spot {
            what: origin_what(k),
            number: k,
        }));
    }
    if !embeds(sys, link) {
        return Ok(Some(Spot {
            what: What::Map,
            number: k,
        }));
    }
    Ok(None)
}

/// Looks at the links, one by one: the first spot that fails.
pub fn first_wrong_link(
    alloc: Global,
    sys: &System,
    links: &[Link],
    env: &mut Env,
) -> Result<Option<Spot>, AllocError>
    requires look { CanLook sys.now env.old }
    requires worlds { All (HasLinkWorlds sys.now.sig) links.now }
    requires few { length links.now < 2 ^ 32 }
    ensures looks { IfOk result (Looks sys.now (NoUniversal links.now)
        (links_below (length links.now))) }
    ensures same { env.new ≡ env.old }
{
    'each: for k in 0..links.len() as u32 {
        if let Some(spot) = wrong_link(alloc, sys, links, k, env)? {
            return Ok(Some(spot));
        }
    }
    Ok(None)
}

/// Whether there is a last link, and its state violates a safety.
pub fn ends_badly(sys: &System, links: &[Link], env: &mut Env) -> bool
    requires look { CanLook sys.now env.old }
    requires worlds { All (HasLinkWorlds sys.now.sig) links.now }
    ensures shown { IsTrue result ↔ EndsBadly sys.now links.now }
    ensures same { env.new ≡ env.old }
{
    if links.is_empty() {
        return false;
    }
    let last = link_of(links, links.len() - 1);
    violates(sys, &last.state, 0, env).is_some()
}
