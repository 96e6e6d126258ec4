//! The strings of a point as it sees them, looked up once for all corners at it.
ghost use Rattle.std.specs.Prelude.{◌≡◌, ◌≤◌};
ghost use Rattle.std.specs.List.{AllByRecursion, list_all};
ghost use Rattle.cad_map.specs.Map.{degree, position_of};
ghost use Rattle.cad_map.specs.Rings.{HasWholeRings};
ghost use Rattle.cad_valid.specs.Corners.{is_empty_after};
ghost use Rattle.cad_near.specs.Rays.{AreRaysOf, IsPlacedRay, is_clear_of_ray as is_clear_of_ray_in};

use arrayvec::ArrayVec;
use cad_map::{MapView, far_with, position};
use cad_rows::PointNo;
use cad_valid::is_same;
use geo_exact::{Pt, in_sector};

/// A string as a point at one of its ends sees it.
#[derive(Clone, Copy)]
pub(crate) struct Ray {
    /// The point that it leads to.
    pub(crate) far: PointNo,
    /// Where that lies.
    pub(crate) position: Pt,
}

/// A blank, which nobody sees.
impl Default for Ray {
    fn default() -> Ray {
        Ray {
            far: PointNo::new(1).unwrap(),
            position: Pt { x: 0, y: 0 },
        }
    }
}

/// The strings of a point of few are looked up once; those of others each time they are asked for.
pub(crate) const MOST_RAYS: usize = 8;

/// The strings of a point as it sees them. It takes no memory.
pub(crate) fn rays_at<M: MapView>(map: &M, point: PointNo) -> ArrayVec<Ray, 8>
    requires { degree (M.map map.now) point ≤ 8 }
    ensures { AreRaysOf (M.map map.now) point result.items }
{
    let mut rays = ArrayVec::new();
    for place in 0..map.degree(point) {
        let far = far_with(map, point, place).unwrap();
        rays.push(Ray {
            far,
            position: position(map, far),
        });
    }
    rays
}

/// The position of a point that mostly is at the end of one of these rays.
fn position_among<M: MapView>(map: &M, rays: &[Ray], point: PointNo) -> Pt
    requires { AllByRecursion (IsPlacedRay (M.map map.now)) rays.now }
    ensures { result ≡ position_of (M.map map.now) point }
{
    for ray in rays {
        if ray.far == point {
            return ray.position;
        }
    }
    position(map, point)
}

/// Whether a ray doesn't lie in the sector of a corner. The two that border it don't.
fn is_clear_of_ray(at: Pt, after: Pt, before: Pt, ray: &Ray) -> bool
    ensures { result ≡ is_clear_of_ray_in at after before ray.now }
{
    is_same(ray.position, after)
        || is_same(ray.position, before)
        || !in_sector(at, after, before, ray.position)
}

/// Whether no ray lies in the sector of a corner.
fn is_clear_of_rays(at: Pt, after: Pt, before: Pt, rays: &[Ray]) -> bool
    ensures { result ≡ list_all (is_clear_of_ray_in at after before) rays.now }
{
    for ray in rays {
        if !is_clear_of_ray(at, after, before, ray) {
            return false;
        }
    }
    true
}

/// Whether the corner after a ray, seen from its far end, is empty. `at`: where the point of the rays
/// lies.
fn is_empty_beyond<M: MapView>(map: &M, point: PointNo, at: Pt, ray: &Ray, rays: &[Ray]) -> bool
    requires whole { HasWholeRings (M.map map.now) }
    requires rays { AreRaysOf (M.map map.now) point rays.now }
    requires placed { IsPlacedRay (M.map map.now) ray.now }
    requires at { at ≡ position_of (M.map map.now) point }
    ensures { result ≡ is_empty_after (M.map map.now) (ray.now.far, point) }
{
    match map.after(ray.far, point) {
        Some(after) => is_clear_of_rays(at, position_among(map, rays, after), ray.position, rays),
        None => true,
    }
}

/// Whether the corners at a point are empty, whose rays these are.
pub(crate) fn are_empty_between<M: MapView>(map: &M, point: PointNo, rays: &[Ray]) -> bool
    requires whole { HasWholeRings (M.map map.now) }
    requires rays { AreRaysOf (M.map map.now) point rays.now }
    ensures { result ≡ list_all (λ r. is_empty_after (M.map map.now) (r.far, point)) rays.now }
{
    let at = position(map, point);
    for ray in rays {
        if !is_empty_beyond(map, point, at, ray, rays) {
            return false;
        }
    }
    true
}
