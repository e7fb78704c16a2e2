//! The phases of instances.
use np_life::{Instances, Phase};
use np_values::NpError;

#[test]
fn numbers_rise_and_a_dead_instance_stays_dead(rt: HostRuntime) {
    let mut instances = Instances::new();
    assert_eq!(rt; instances.begin(), Some(1));
    assert_eq!(rt; instances.dead(1), NpError::NoError);
    assert_eq!(rt; instances.begin(), Some(2));
    assert_eq!(rt; instances.destroy(2), NpError::NoError);
    assert_eq!(rt; instances.destroy(1), NpError::InvalidInstance);
    assert_eq!(rt;
        (instances.phase(1), instances.phase(2), instances.phase(3)),
        (Phase::Dead, Phase::Destroying, Phase::Absent)
    );
}
