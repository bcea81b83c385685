// The h of a variable where its signal is plain, and where it is flipped.
use crate::put_normals;
use diagram::table::Table;
use std::test::Fail;

#[test]
fn normals(rt: HostRuntime) -> Result<(), Fail> {
    let mut words = [0; 20];
    let mut table = Table::new(&mut words);
    table.clear();
    let x = table.make(1, 0, 1)?;
    assert_eq!(rt; x, 2);
    let mut h = [0; 2];
    put_normals(&mut table, &[true, false], &[2, 2], &mut h, 1)?;
    assert_eq!(rt; h, [2, 3]);
    Ok(())
}
