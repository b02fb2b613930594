ghost use Rattle.std.specs.Prelude.{◌≡◌};
ghost use Rattle.codes.specs.declared.store_version.StoreVersion.{StoreVersion};
ghost use Rattle.image.specs.LawfulFits.{LawfulSnapshotsFit};
ghost use Rattle.image.specs.Rows.{snapshot_encoding_of};
ghost use Rattle.ipc_model.specs.state.State.{State};
ghost use Rattle.ipc_model.specs.encodings.Images.{image_encoding_of};
ghost use Rattle.snapshot.specs.Snapshots.{snapshot_of};

/// The encoding of a state's snapshot is the state's image, in every version.
pub fn image_is_of_state()
    ensures { (version : StoreVersion) (state : State)
        → snapshot_encoding_of version (snapshot_of state) ≡ image_encoding_of version state }
{}

/// An image can encode the snapshot of every lawful state whose queues are short enough to count.
pub fn lawful_snapshots_fit()
    ensures { LawfulSnapshotsFit }
{}
