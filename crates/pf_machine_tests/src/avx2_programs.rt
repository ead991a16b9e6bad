//! Programs of all control instructions of AVX2, as texts of the form that `programs` tells.

pub const AVX2: &str = "\
image 16 2
line .target avx2
line .image a u8 0 255
line .tap a 0 0
line .out u8
line .scratch 256
line .lifted out u8 = a[0,0]
line .cost 0
line mov rax, qword ptr [rdi+0]
line mov r8, qword ptr [rdi+8]
line mov rdx, qword ptr [rdi+16]
line mov rsi, qword ptr [rdi+24]
line lea rax, [rax+rsi]
line mov ecx, 0
line mov r10d, 100
line mov qword ptr [rdx+192], rsi
line mov qword ptr [rdx+200], r8
line round:
line cmp rcx, rsi
line jb more
line ret
line more:
line lea rax, [rax-1]
line movzx r9d, byte ptr [rax]
line cmp r9, r10
line jb small
line movzx r10d, word ptr [rdx]
line lea r9, [r9+r10]
line mov word ptr [rdx], r9w
line mov r10d, 100
line jmp write
line small:
line lea rdx, [rdx+rcx]
line lea rdx, [rdx+rcx]
line mov byte ptr [rdx], cl
line mov rdx, qword ptr [rdi+16]
line write:
line mov byte ptr [r8], r9b
line lea r8, [r8+1]
line lea rcx, [rcx+1]
line jmp round
region table 65536 32
region scratch 73728 256
region image 81920 32
region output 90112 32
row 81920 90112 73728 16
steps 244
row 81936 90128 73728 16
steps 245
memory 73728 e60b0100020003000000000006000700080009000a00000000000d000e000f00
memory 73920 1000000000000000106001000000000000000000000000000000000000000000
memory 90112 3611ecb355d258330ebb7f1e9855300b1e613c1710dd85085e3914f7c166e65b
end
image 4200 1
line .target avx2
line .image a u8 0 255
line .tap a 0 0
line .out u8
line .scratch 16
line .lifted out u8 = a[0,0]
line .cost 0
line mov rdi, qword ptr [rdi+8]
line lea r9, [r9-1]
line jmp l2
line l2:
line mov esi, 65535
line cmp r8, r9
line lea rdx, [rdi+2450]
line movzx eax, byte ptr [rdx]
line lea r8, [rdi+1997]
line movzx esi, word ptr [r8]
line lea rdx, [rdi+rsi]
line mov rax, qword ptr [rdi+504]
line mov ecx, 0
line lea rax, [rdi+775]
line movzx eax, byte ptr [rax]
line mov r9, qword ptr [rdi+1952]
line cmp rdx, rdx
line mov rax, qword ptr [rdi+592]
line lea rdx, [rdi+3623]
line mov byte ptr [rdx], sil
line mov rdx, qword ptr [rdi+528]
line jb l20
line lea r8, [rdi+3919]
line mov word ptr [r8], cx
line lea rsi, [rdi+r10]
line lea r9, [rdi+228]
line mov word ptr [r9], r8w
line lea r10, [rsi+4095]
line cmp rdx, rsi
line mov r8, qword ptr [rdi+864]
line lea rax, [rdi+1959]
line movzx ecx, word ptr [rax]
line l20:
line lea r10, [rcx+1]
line jb l32
line l32:
line jb l33
line lea r9, [rdi+64]
line mov byte ptr [r9], sil
line lea rax, [rcx+rsi]
line lea r8, [rdi+1776]
line mov byte ptr [r8], r9b
line cmp rdx, rax
line l33:
line cmp rdx, r8
line lea rcx, [rdi+3715]
line movzx esi, word ptr [rcx]
line mov r9, qword ptr [rdi+680]
line lea rsi, [rdi+498]
line mov byte ptr [rsi], r8b
line mov rsi, qword ptr [rdi+480]
line lea r10, [rsi+1]
line lea rsi, [rax+r10]
line lea r9, [rdi+1698]
line mov byte ptr [r9], cl
line mov eax, 13876
line lea r9, [rdi+2484]
line movzx edx, byte ptr [r9]
line cmp rcx, rsi
line lea rcx, [rdi+1194]
line mov word ptr [rcx], dx
line lea r9, [rax+0]
line lea r9, [rdx+rcx]
line mov qword ptr [rdi+24], r8
line jmp l60
line l60:
line mov qword ptr [rdi+360], r9
line lea rdx, [rdi+1326]
line movzx r9d, byte ptr [rdx]
line lea r10, [rdi+2647]
line mov word ptr [r10], r10w
line lea r8, [r10+rdi]
line cmp rdi, r9
line lea rax, [rdi+1352]
line movzx r9d, byte ptr [rax]
line mov qword ptr [rdi+1600], rsi
line mov qword ptr [rdi+1608], rdx
line mov qword ptr [rdi+1616], rcx
line mov qword ptr [rdi+1624], r8
line mov qword ptr [rdi+1632], rax
line mov qword ptr [rdi+1640], r9
line mov qword ptr [rdi+1648], r10
line mov esi, 0
line jb z
line mov esi, 1
line z:
line mov qword ptr [rdi+1680], rsi
line ret
region table 65536 32
region scratch 73728 16
region image 81920 4200
region output 94208 4200
row 81920 94208 73728 4200
steps 76
memory 94432 000000004f7f0000000000000000000000000000000000000000000000000000
memory 94560 0000000000000000aa7401000000000000000000000000000000000000000000
memory 95808 a8770100000000002e75010000000000aa7401000000000057ea020000000000
memory 95840 48750100000000000000000000000000577a0100000000000000000000000000
memory 95872 0000000000000000000000000000000001000000000000000000000000000000
memory 95904 0000830000000000000000000000000000000000000000000000000000000000
memory 96832 0000000000000000000000000000000000000000000000577a00000000000000
end
image 16 1
line .target avx2
line .image a u8 0 255
line .tap a 0 0
line .out u8
line .scratch 8192
line .lifted out u8 = a[0,0]
line .cost 0
line mov r10, qword ptr [rdi+16]
line lea rcx, [r10+3079]
line mov word ptr [rcx], cx
line jmp l3
line jmp l4
line l3:
line l4:
line lea rdi, [rax+r10]
line cmp r10, rsi
line lea rdx, [rax+6144000]
line mov r8d, 0
line jmp l9
line jmp l10
line mov eax, 65535
line lea rax, [rdi+r10]
line lea r9, [rdi+rsi]
line lea r8, [rax+r9]
line l9:
line l10:
line mov rdi, qword ptr [r10+96]
line mov eax, 9560
line lea rsi, [r10+2208]
line mov byte ptr [rsi], r9b
line lea rcx, [r10+rdi]
line mov rsi, qword ptr [r10+1960]
line mov qword ptr [r10+600], r8
line lea r8, [r10+3278]
line movzx edi, byte ptr [r8]
line lea rax, [r10+421]
line mov byte ptr [rax], dil
line lea r8, [r10+2730]
line mov word ptr [r8], ax
line lea rcx, [r10+460]
line movzx edx, byte ptr [rcx]
line jb l30
line cmp rdx, rcx
line l30:
line lea rdi, [rdi+rax]
line jmp l33
line lea rsi, [r10+1469]
line movzx esi, byte ptr [rsi]
line jb l36
line l33:
line lea rsi, [r10+r10]
line lea r8, [r10+3024]
line movzx ecx, word ptr [r8]
line lea rdi, [r10+2133]
line movzx ecx, byte ptr [rdi]
line lea r8, [r9+4096]
line l36:
line lea rdx, [r10+3236]
line movzx esi, byte ptr [rdx]
line mov r8d, 1950
line jb l46
line jmp l47
line l46:
line l47:
line lea r9, [r10+1566]
line mov word ptr [r9], di
line lea rdx, [r9+1]
line lea rax, [rcx+r9]
line mov qword ptr [r10+1368], rcx
line mov r9, qword ptr [r10+80]
line jmp l54
line lea rdx, [rax+rax]
line l54:
line mov r8d, 44717
line mov r9, qword ptr [r10+1200]
line lea r9, [r10+224]
line mov byte ptr [r9], dl
line cmp r10, rax
line lea rdi, [r10+1000]
line mov byte ptr [rdi], dl
line jb l63
line mov r9, qword ptr [r10+424]
line l63:
line jmp l65
line jmp l66
line l65:
line jmp l67
line jmp l68
line l66:
line l67:
line l68:
line lea rcx, [rcx+r9]
line lea r9, [r8+r10]
line mov esi, 59720
line lea r9, [r10+1353]
line mov word ptr [r9], r8w
line lea rdx, [r10+1043]
line mov byte ptr [rdx], al
line mov r8d, 34114
line cmp rax, rsi
line lea rsi, [r10+3580]
line mov word ptr [rsi], dx
line mov qword ptr [r10+1600], rdi
line mov qword ptr [r10+1608], rsi
line mov qword ptr [r10+1616], rdx
line mov qword ptr [r10+1624], rcx
line mov qword ptr [r10+1632], r8
line mov qword ptr [r10+1640], rax
line mov qword ptr [r10+1648], r9
line mov edi, 0
line jb z
line mov edi, 1
line z:
line mov qword ptr [r10+1680], rdi
line ret
region table 65536 32
region scratch 73728 8192
region image 86016 16
region output 94208 16
row 86016 94208 73728 16
steps 78
memory 73952 1f00000000000000000000000000000000000000000000000000000000000000
memory 74720 00000000000000001f0000000000000000000000000000000000000000000000
memory 74752 000000000000000000000000000000000000001e000000000000000000000000
memory 75072 000000000000000000adae000000000000000000000000000000000000000000
memory 75264 0000000000000000000000000000000000000000000000000000000000005528
memory 75328 e823010000000000fc2d0100000000001324010000000000e020010000000000
memory 75360 42850000000000001e2601000000000049250100000000000000000000000000
memory 75392 0000000000000000000000000000000001000000000000000000000000000000
memory 76448 00000000000000000000a5210000000000000000000000000000000000000000
memory 76800 00000000000000072c0000000000000000000000000000000000000000000000
memory 77280 0000000000000000000000000000000000000000000000000000000013240000
end
";
