//! Programs of all control instructions of HVX, as texts of the form that `programs` tells.

pub const HVX: &str = "\
image 16 2
line .target hvx
line .image a u8 0 255
line .tap a 0 0
line .out u8
line .scratch 256
line .lifted out u8 = a[0,0]
line .cost 0
line { r5 = memw(r0+#0) }
line { r4 = memw(r0+#8) }
line { r2 = memw(r0+#16) }
line { r1 = memw(r0+#24) }
line { r5 = add(r5,r1) }
line { r3 = ##0 }
line { r8 = ##100 }
line { memw(r2+#192) = r1 }
line { memw(r2+#200) = r4 }
line round:
line { p0 = cmp.gtu(r1,r3) }
line { if (p0) jump more }
line { jumpr r31 }
line more:
line { r5 = add(r5,##-1) }
line { r6 = memub(r5+#0) }
line { p0 = cmp.gtu(r8,r6) }
line { if (p0) jump small }
line { r8 = memuh(r2+#0) }
line { r6 = add(r6,r8) }
line { memh(r2+#0) = r6 }
line { r8 = ##100 }
line { jump write }
line small:
line { r2 = add(r2,r3) }
line { r2 = add(r2,r3) }
line { memb(r2+#0) = r3 }
line { r2 = memw(r0+#16) }
line write:
line { memb(r4+#0) = r6 }
line { r4 = add(r4,##1) }
line { r3 = add(r3,##1) }
line { jump round }
region table 65536 32
region scratch 73728 256
region image 81920 32
region output 90112 32
row 81920 90112 73728 16
steps 244
row 81936 90128 73728 16
steps 245
memory 73728 e60b0100020003000000000006000700080009000a00000000000d000e000f00
memory 73920 1000000000000000106001000000000000000000000000000000000000000000
memory 90112 3611ecb355d258330ebb7f1e9855300b1e613c1710dd85085e3914f7c166e65b
end
image 4200 1
line .target hvx
line .image a u8 0 255
line .tap a 0 0
line .out u8
line .scratch 16
line .lifted out u8 = a[0,0]
line .cost 0
line { r0 = memw(r0+#8) }
line { r6 = add(r6,##-1) }
line { jump l2 }
line l2:
line { r1 = ##65535 }
line { p0 = cmp.gtu(r6,r4) }
line { r2 = add(r0,##2450) }
line { r5 = memub(r2+#0) }
line { r4 = add(r0,##1997) }
line { r1 = memuh(r4+#0) }
line { r2 = add(r0,r1) }
line { r5 = memw(r0+#504) }
line { r3 = ##0 }
line { r5 = add(r0,##775) }
line { r5 = memub(r5+#0) }
line { r6 = memw(r0+#1952) }
line { p0 = cmp.gtu(r2,r2) }
line { r5 = memw(r0+#592) }
line { r2 = add(r0,##3623) }
line { memb(r2+#0) = r1 }
line { r2 = memw(r0+#528) }
line { if (p0) jump l20 }
line { r4 = add(r0,##3919) }
line { memh(r4+#0) = r3 }
line { r1 = add(r0,r8) }
line { r6 = add(r0,##228) }
line { memh(r6+#0) = r4 }
line { r8 = add(r1,##4095) }
line { p0 = cmp.gtu(r1,r2) }
line { r4 = memw(r0+#864) }
line { r5 = add(r0,##1959) }
line { r3 = memuh(r5+#0) }
line l20:
line { r8 = add(r3,##1) }
line { if (p0) jump l32 }
line l32:
line { if (p0) jump l33 }
line { r6 = add(r0,##64) }
line { memb(r6+#0) = r1 }
line { r5 = add(r3,r1) }
line { r4 = add(r0,##1776) }
line { memb(r4+#0) = r6 }
line { p0 = cmp.gtu(r5,r2) }
line l33:
line { p0 = cmp.gtu(r4,r2) }
line { r3 = add(r0,##3715) }
line { r1 = memuh(r3+#0) }
line { r6 = memw(r0+#680) }
line { r1 = add(r0,##498) }
line { memb(r1+#0) = r4 }
line { r1 = memw(r0+#480) }
line { r8 = add(r1,##1) }
line { r1 = add(r5,r8) }
line { r6 = add(r0,##1698) }
line { memb(r6+#0) = r3 }
line { r5 = ##13876 }
line { r6 = add(r0,##2484) }
line { r2 = memub(r6+#0) }
line { p0 = cmp.gtu(r1,r3) }
line { r3 = add(r0,##1194) }
line { memh(r3+#0) = r2 }
line { r6 = add(r5,##0) }
line { r6 = add(r2,r3) }
line { memw(r0+#24) = r4 }
line { jump l60 }
line l60:
line { memw(r0+#360) = r6 }
line { r2 = add(r0,##1326) }
line { r6 = memub(r2+#0) }
line { r8 = add(r0,##2647) }
line { memh(r8+#0) = r8 }
line { r4 = add(r8,r0) }
line { p0 = cmp.gtu(r6,r0) }
line { r5 = add(r0,##1352) }
line { r6 = memub(r5+#0) }
line { memw(r0+#1600) = r1 }
line { memw(r0+#1608) = r2 }
line { memw(r0+#1616) = r3 }
line { memw(r0+#1624) = r4 }
line { memw(r0+#1632) = r5 }
line { memw(r0+#1640) = r6 }
line { memw(r0+#1648) = r8 }
line { r1 = ##0 }
line { if (p0) jump z }
line { r1 = ##1 }
line z:
line { memw(r0+#1680) = r1 }
line { jumpr r31 }
region table 65536 32
region scratch 73728 16
region image 81920 4200
region output 94208 4200
row 81920 94208 73728 4200
steps 76
memory 94432 000000004f7f0000000000000000000000000000000000000000000000000000
memory 94560 0000000000000000aa7401000000000000000000000000000000000000000000
memory 95808 a8770100000000002e75010000000000aa7401000000000057ea020000000000
memory 95840 48750100000000000000000000000000577a0100000000000000000000000000
memory 95872 0000000000000000000000000000000001000000000000000000000000000000
memory 95904 0000830000000000000000000000000000000000000000000000000000000000
memory 96832 0000000000000000000000000000000000000000000000577a00000000000000
end
image 16 1
line .target hvx
line .image a u8 0 255
line .tap a 0 0
line .out u8
line .scratch 8192
line .lifted out u8 = a[0,0]
line .cost 0
line { r8 = memw(r0+#16) }
line { r3 = add(r8,##3079) }
line { memh(r3+#0) = r3 }
line { jump l3 }
line { jump l4 }
line l3:
line l4:
line { r0 = add(r5,r8) }
line { p0 = cmp.gtu(r1,r8) }
line { r2 = add(r5,##6144000) }
line { r4 = ##0 }
line { jump l9 }
line { jump l10 }
line { r5 = ##65535 }
line { r5 = add(r0,r8) }
line { r6 = add(r0,r1) }
line { r4 = add(r5,r6) }
line l9:
line l10:
line { r0 = memw(r8+#96) }
line { r5 = ##9560 }
line { r1 = add(r8,##2208) }
line { memb(r1+#0) = r6 }
line { r3 = add(r8,r0) }
line { r1 = memw(r8+#1960) }
line { memw(r8+#600) = r4 }
line { r4 = add(r8,##3278) }
line { r0 = memub(r4+#0) }
line { r5 = add(r8,##421) }
line { memb(r5+#0) = r0 }
line { r4 = add(r8,##2730) }
line { memh(r4+#0) = r5 }
line { r3 = add(r8,##460) }
line { r2 = memub(r3+#0) }
line { if (p0) jump l30 }
line { p0 = cmp.gtu(r3,r2) }
line l30:
line { r0 = add(r0,r5) }
line { jump l33 }
line { r1 = add(r8,##1469) }
line { r1 = memub(r1+#0) }
line { if (p0) jump l36 }
line l33:
line { r1 = add(r8,r8) }
line { r4 = add(r8,##3024) }
line { r3 = memuh(r4+#0) }
line { r0 = add(r8,##2133) }
line { r3 = memub(r0+#0) }
line { r4 = add(r6,##4096) }
line l36:
line { r2 = add(r8,##3236) }
line { r1 = memub(r2+#0) }
line { r4 = ##1950 }
line { if (p0) jump l46 }
line { jump l47 }
line l46:
line l47:
line { r6 = add(r8,##1566) }
line { memh(r6+#0) = r0 }
line { r2 = add(r6,##1) }
line { r5 = add(r3,r6) }
line { memw(r8+#1368) = r3 }
line { r6 = memw(r8+#80) }
line { jump l54 }
line { r2 = add(r5,r5) }
line l54:
line { r4 = ##44717 }
line { r6 = memw(r8+#1200) }
line { r6 = add(r8,##224) }
line { memb(r6+#0) = r2 }
line { p0 = cmp.gtu(r5,r8) }
line { r0 = add(r8,##1000) }
line { memb(r0+#0) = r2 }
line { if (p0) jump l63 }
line { r6 = memw(r8+#424) }
line l63:
line { jump l65 }
line { jump l66 }
line l65:
line { jump l67 }
line { jump l68 }
line l66:
line l67:
line l68:
line { r3 = add(r3,r6) }
line { r6 = add(r4,r8) }
line { r1 = ##59720 }
line { r6 = add(r8,##1353) }
line { memh(r6+#0) = r4 }
line { r2 = add(r8,##1043) }
line { memb(r2+#0) = r5 }
line { r4 = ##34114 }
line { p0 = cmp.gtu(r1,r5) }
line { r1 = add(r8,##3580) }
line { memh(r1+#0) = r2 }
line { memw(r8+#1600) = r0 }
line { memw(r8+#1608) = r1 }
line { memw(r8+#1616) = r2 }
line { memw(r8+#1624) = r3 }
line { memw(r8+#1632) = r4 }
line { memw(r8+#1640) = r5 }
line { memw(r8+#1648) = r6 }
line { r0 = ##0 }
line { if (p0) jump z }
line { r0 = ##1 }
line z:
line { memw(r8+#1680) = r0 }
line { jumpr r31 }
region table 65536 32
region scratch 73728 8192
region image 86016 16
region output 94208 16
row 86016 94208 73728 16
steps 78
memory 73952 1f00000000000000000000000000000000000000000000000000000000000000
memory 74720 00000000000000001f0000000000000000000000000000000000000000000000
memory 74752 000000000000000000000000000000000000001e000000000000000000000000
memory 75072 000000000000000000adae000000000000000000000000000000000000000000
memory 75264 0000000000000000000000000000000000000000000000000000000000005528
memory 75328 e823010000000000fc2d0100000000001324010000000000e020010000000000
memory 75360 42850000000000001e2601000000000049250100000000000000000000000000
memory 75392 0000000000000000000000000000000001000000000000000000000000000000
memory 76448 00000000000000000000a5210000000000000000000000000000000000000000
memory 76800 00000000000000072c0000000000000000000000000000000000000000000000
memory 77280 0000000000000000000000000000000000000000000000000000000013240000
end
";
