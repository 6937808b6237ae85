ghost use Rattle.std.specs.Prelude.{◌≡◌, ℕ, ◌<◌, length, slice_index};
ghost use Rattle.graphs.specs.Classes.{relabelled};

/// Whatever has the old label takes the new one.
pub fn relabel(labels: &mut [u16], new: u16, old: u16)
    ensures items { (k : ℕ) → k < length labels.old → slice_index labels.new k ≡ relabelled new old (slice_index labels.old k) }
{
    for label in labels.iter_mut() {
        if *label == old {
            *label = new;
        }
    }
}
