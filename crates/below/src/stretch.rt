// A packet in a stretch of bytes.
ghost use Rattle.std.specs.Prelude.{◌≡◌, ◌≤◌, length, take};
ghost use Rattle.below.specs.Stretch.{padded};

// Lays a packet at the front of a stretch, with zeros after it.
pub(crate) fn lay(stretch: &mut [u8], packet: &[u8])
    requires { length packet.now ≤ length stretch.old }
    ensures whole { stretch.new ≡ padded packet.now (length stretch.old) }
    ensures front { take (length packet.now) stretch.new ≡ packet.now }
{
    stretch.fill(0);
    stretch[..packet.len()].copy_from_slice(packet);
}
