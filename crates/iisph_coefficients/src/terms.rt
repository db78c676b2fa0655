// What the gradient of a contact gives the sums of its owner (METHOD 5.4, 5.6). By the number of axes the compiler
// makes two loops of the one that calls a function here, each with that number as a constant.
ghost use Rattle.std.specs.Prelude.{◌≡◌, ◌+◌};
ghost use Rattle.math.specs.Vector.{Axes, coordinates, ◌⊟◌, ◌⊡◌, ◌·◌};
ghost use Rattle.scene_format.specs.Bytes.{AllFinite, vector_at};
ghost use Rattle.scene_format.specs.Format.{gradient_offset};

use math::{PLANE, SPACE, Vec3};
use scene_format::format::CONTACT_GRADIENT;
use scene_format::read;

// v · g, where g is the gradient of the contact at an offset.
pub fn approach(scene: &[u8], dim: u8, c: usize, v: Vec3) -> f64
    requires { Axes dim × AllFinite scene.now (c + gradient_offset) dim }
    ensures { result ≡ coordinates dim v · vector_at dim scene.now (c + gradient_offset) }
{
    if dim == SPACE {
        let g = read::vector(scene, c + CONTACT_GRADIENT, SPACE);
        return v.dot(g, SPACE);
    }
    let g = read::vector(scene, c + CONTACT_GRADIENT, PLANE);
    v.dot(g, PLANE)
}

// (d - g × factor) · g.
pub fn returning(scene: &[u8], dim: u8, c: usize, factor: f64, d: Vec3) -> f64
    requires { Axes dim × AllFinite scene.now (c + gradient_offset) dim }
    ensures { let g = vector_at dim scene.now (c + gradient_offset) in result ≡ (coordinates dim d ⊟ g ⊡ factor) · g }
{
    if dim == SPACE {
        let g = read::vector(scene, c + CONTACT_GRADIENT, SPACE);
        return d.sub(g.scale(factor)).dot(g, SPACE);
    }
    let g = read::vector(scene, c + CONTACT_GRADIENT, PLANE);
    d.sub(g.scale(factor)).dot(g, PLANE)
}
