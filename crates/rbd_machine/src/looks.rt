//! The operations of look-ups.
ghost use Rattle.std.specs.Prelude.{◌≡◌, IfOk};
ghost use Rattle.rbd_kinds.specs.declared.directory_op.DirectoryOp.TheVariants.{Find};
ghost use Rattle.rbd_kinds.specs.declared.header_op.HeaderOp.TheVariants.{Get};
ghost use Rattle.rbd_kinds.specs.declared.operation.Op.TheVariants.{Directory, Header};

use rbd_kinds::{DirectoryOp, HeaderOp, ImageId, Name, NoMemory, Op, TryClone};

/// Looks an image up by its name, which is copied. NoMemory where the memory for it is refused.
pub fn dir_find(name: &Name) -> Result<Op, NoMemory>
    ensures { IfOk result (λ op. op ≡ Directory (Find name.now)) }
{
    let name = name.try_clone()?;
    Ok(Op::Directory(DirectoryOp::Find { name }))
}

/// Looks at an image's header.
pub fn header_get(image: ImageId) -> Op
    ensures { result ≡ Header image Get }
{
    Op::Header {
        image,
        op: HeaderOp::Get,
    }
}
