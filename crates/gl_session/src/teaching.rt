//! Ports that wait while another one learns maps: they learn the same.

ghost use Rattle.std.specs.Prelude.{◌≡◌, ◌≢◌, ◌<◌, ℕ, [], length, slice_get, Some};
ghost use Rattle.gl_check.specs.Joining.{no_maps};
ghost use Rattle.gl_session.specs.Ports.{AllHave, AreMaps, HasLearned, IsTaught};

use crate::fork::{give_port, take_port};
use gl_core::Core;
use gl_driver::{Driver, Map, Port};

/// Has a port learn maps, one after another.
fn teach<D: Driver<Core>>(port: &mut D::Port, maps: &[Map])
    requires may_be_learned { AreMaps maps.now }
    requires bare { D.Port.maps port.old ≡ [] }
    ensures { HasLearned D.Port.maps D.Port.maps_left D.Port.told D.Port.faults maps.now port.old port.new }
{
    for map in maps {
        port.learn(map);
    }
}

/// Has the port of a number learn maps, if it is there.
fn teach_at<D: Driver<Core>>(ports: &mut [Option<D::Port>], n: usize, maps: &[Map])
    requires within { n < length ports.old }
    requires may_be_learned { AreMaps maps.now }
    requires bare { (port : _) → slice_get ports.old n ≡ Some (Some port) → D.Port.maps port ≡ [] }
    ensures taught { IsTaught D.Port.maps D.Port.maps_left D.Port.told D.Port.faults maps.now (slice_get ports.old n) (slice_get ports.new n) }
    ensures others { (k : ℕ) → k ≢ n → slice_get ports.new k ≡ slice_get ports.old k }
    ensures ports_len { length ports.new ≡ length ports.old }
{
    match take_port::<D>(ports, n) {
        Some(mut port) => {
            teach::<D>(&mut port, maps);
            give_port::<D>(ports, n, port);
        }
        None => {}
    }
}

/// Has all ports learn maps that are there: nobody asks a driver through them meanwhile.
pub fn teach_all<D: Driver<Core>>(ports: &mut [Option<D::Port>], maps: &[Map])
    requires may_be_learned { AreMaps maps.now }
    requires bare { (left : ℕ) × AllHave D.Port.maps D.Port.maps_left (no_maps left) ports.old }
    ensures taught { (n : ℕ) → IsTaught D.Port.maps D.Port.maps_left D.Port.told D.Port.faults maps.now (slice_get ports.old n) (slice_get ports.new n) }
    ensures ports_len { length ports.new ≡ length ports.old }
{
    for n in 0..ports.len() {
        teach_at::<D>(ports, n, maps);
    }
}
