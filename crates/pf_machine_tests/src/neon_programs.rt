//! Programs of all control instructions of neon, as texts of the form that `programs` tells.

pub const NEON: &str = "\
image 16 2
line .target neon
line .image a u8 0 255
line .tap a 0 0
line .out u8
line .scratch 256
line .lifted out u8 = a[0,0]
line .cost 0
line ldr x5, [x0, #0]
line ldr x4, [x0, #8]
line ldr x2, [x0, #16]
line ldr x1, [x0, #24]
line add x5, x5, x1
line mov x3, #0
line mov x7, #100
line str x1, [x2, #192]
line str x4, [x2, #200]
line round:
line cmp x3, x1
line b.lo more
line ret
line more:
line sub x5, x5, #1
line ldrb w6, [x5]
line cmp x6, x7
line b.lo small
line ldrh w7, [x2]
line add x6, x6, x7
line strh w6, [x2]
line mov x7, #100
line b write
line small:
line add x2, x2, x3
line add x2, x2, x3
line strb w3, [x2]
line ldr x2, [x0, #16]
line write:
line strb w6, [x4]
line add x4, x4, #1
line add x3, x3, #1
line b round
region table 65536 32
region scratch 73728 256
region image 81920 32
region output 90112 32
row 81920 90112 73728 16
steps 244
row 81936 90128 73728 16
steps 245
memory 73728 e60b0100020003000000000006000700080009000a00000000000d000e000f00
memory 73920 1000000000000000106001000000000000000000000000000000000000000000
memory 90112 3611ecb355d258330ebb7f1e9855300b1e613c1710dd85085e3914f7c166e65b
end
image 4200 1
line .target neon
line .image a u8 0 255
line .tap a 0 0
line .out u8
line .scratch 16
line .lifted out u8 = a[0,0]
line .cost 0
line ldr x0, [x0, #8]
line sub x6, x6, #1
line b l2
line l2:
line mov x1, #65535
line cmp x4, x6
line add x2, x0, #2450
line ldrb w5, [x2]
line add x4, x0, #1997
line ldrh w1, [x4]
line add x2, x0, x1
line ldr x5, [x0, #504]
line mov x3, #0
line add x5, x0, #775
line ldrb w5, [x5]
line ldr x6, [x0, #1952]
line cmp x2, x2
line ldr x5, [x0, #592]
line add x2, x0, #3623
line strb w1, [x2]
line ldr x2, [x0, #528]
line b.lo l20
line add x4, x0, #3919
line strh w3, [x4]
line add x1, x0, x7
line add x6, x0, #228
line strh w4, [x6]
line add x7, x1, #4095
line cmp x2, x1
line ldr x4, [x0, #864]
line add x5, x0, #1959
line ldrh w3, [x5]
line l20:
line add x7, x3, #1
line b.lo l32
line l32:
line b.lo l33
line add x6, x0, #64
line strb w1, [x6]
line add x5, x3, x1
line add x4, x0, #1776
line strb w6, [x4]
line cmp x2, x5
line l33:
line cmp x2, x4
line add x3, x0, #3715
line ldrh w1, [x3]
line ldr x6, [x0, #680]
line add x1, x0, #498
line strb w4, [x1]
line ldr x1, [x0, #480]
line add x7, x1, #1
line add x1, x5, x7
line add x6, x0, #1698
line strb w3, [x6]
line mov x5, #13876
line add x6, x0, #2484
line ldrb w2, [x6]
line cmp x3, x1
line add x3, x0, #1194
line strh w2, [x3]
line add x6, x5, #0
line add x6, x2, x3
line str x4, [x0, #24]
line b l60
line l60:
line str x6, [x0, #360]
line add x2, x0, #1326
line ldrb w6, [x2]
line add x7, x0, #2647
line strh w7, [x7]
line add x4, x7, x0
line cmp x0, x6
line add x5, x0, #1352
line ldrb w6, [x5]
line str x1, [x0, #1600]
line str x2, [x0, #1608]
line str x3, [x0, #1616]
line str x4, [x0, #1624]
line str x5, [x0, #1632]
line str x6, [x0, #1640]
line str x7, [x0, #1648]
line mov x1, #0
line b.lo z
line mov x1, #1
line z:
line str x1, [x0, #1680]
line ret
region table 65536 32
region scratch 73728 16
region image 81920 4200
region output 94208 4200
row 81920 94208 73728 4200
steps 76
memory 94432 000000004f7f0000000000000000000000000000000000000000000000000000
memory 94560 0000000000000000aa7401000000000000000000000000000000000000000000
memory 95808 a8770100000000002e75010000000000aa7401000000000057ea020000000000
memory 95840 48750100000000000000000000000000577a0100000000000000000000000000
memory 95872 0000000000000000000000000000000001000000000000000000000000000000
memory 95904 0000830000000000000000000000000000000000000000000000000000000000
memory 96832 0000000000000000000000000000000000000000000000577a00000000000000
end
image 16 1
line .target neon
line .image a u8 0 255
line .tap a 0 0
line .out u8
line .scratch 8192
line .lifted out u8 = a[0,0]
line .cost 0
line ldr x7, [x0, #16]
line add x3, x7, #3079
line strh w3, [x3]
line b l3
line b l4
line l3:
line l4:
line add x0, x5, x7
line cmp x7, x1
line add x2, x5, #1500, lsl #12
line mov x4, #0
line b l9
line b l10
line mov x5, #65535
line add x5, x0, x7
line add x6, x0, x1
line add x4, x5, x6
line l9:
line l10:
line ldr x0, [x7, #96]
line mov x5, #9560
line add x1, x7, #2208
line strb w6, [x1]
line add x3, x7, x0
line ldr x1, [x7, #1960]
line str x4, [x7, #600]
line add x4, x7, #3278
line ldrb w0, [x4]
line add x5, x7, #421
line strb w0, [x5]
line add x4, x7, #2730
line strh w5, [x4]
line add x3, x7, #460
line ldrb w2, [x3]
line b.lo l30
line cmp x2, x3
line l30:
line add x0, x0, x5
line b l33
line add x1, x7, #1469
line ldrb w1, [x1]
line b.lo l36
line l33:
line add x1, x7, x7
line add x4, x7, #3024
line ldrh w3, [x4]
line add x0, x7, #2133
line ldrb w3, [x0]
line add x4, x6, #1, lsl #12
line l36:
line add x2, x7, #3236
line ldrb w1, [x2]
line mov x4, #1950
line b.lo l46
line b l47
line l46:
line l47:
line add x6, x7, #1566
line strh w0, [x6]
line add x2, x6, #1
line add x5, x3, x6
line str x3, [x7, #1368]
line ldr x6, [x7, #80]
line b l54
line add x2, x5, x5
line l54:
line mov x4, #44717
line ldr x6, [x7, #1200]
line add x6, x7, #224
line strb w2, [x6]
line cmp x7, x5
line add x0, x7, #1000
line strb w2, [x0]
line b.lo l63
line ldr x6, [x7, #424]
line l63:
line b l65
line b l66
line l65:
line b l67
line b l68
line l66:
line l67:
line l68:
line add x3, x3, x6
line add x6, x4, x7
line mov x1, #59720
line add x6, x7, #1353
line strh w4, [x6]
line add x2, x7, #1043
line strb w5, [x2]
line mov x4, #34114
line cmp x5, x1
line add x1, x7, #3580
line strh w2, [x1]
line str x0, [x7, #1600]
line str x1, [x7, #1608]
line str x2, [x7, #1616]
line str x3, [x7, #1624]
line str x4, [x7, #1632]
line str x5, [x7, #1640]
line str x6, [x7, #1648]
line mov x0, #0
line b.lo z
line mov x0, #1
line z:
line str x0, [x7, #1680]
line ret
region table 65536 32
region scratch 73728 8192
region image 86016 16
region output 94208 16
row 86016 94208 73728 16
steps 78
memory 73952 1f00000000000000000000000000000000000000000000000000000000000000
memory 74720 00000000000000001f0000000000000000000000000000000000000000000000
memory 74752 000000000000000000000000000000000000001e000000000000000000000000
memory 75072 000000000000000000adae000000000000000000000000000000000000000000
memory 75264 0000000000000000000000000000000000000000000000000000000000005528
memory 75328 e823010000000000fc2d0100000000001324010000000000e020010000000000
memory 75360 42850000000000001e2601000000000049250100000000000000000000000000
memory 75392 0000000000000000000000000000000001000000000000000000000000000000
memory 76448 00000000000000000000a5210000000000000000000000000000000000000000
memory 76800 00000000000000072c0000000000000000000000000000000000000000000000
memory 77280 0000000000000000000000000000000000000000000000000000000013240000
end
";
